// Whole sources.

ghost use Rattle.std.specs.Prelude.{◌≡◌, List, IfOk, IfErr};
ghost use Rattle.c_lexer.specs.declared.token.Token.{Token as Lexed};
ghost use Rattle.c_parser.specs.Parsed.{IsCounted, IsParsed, IsParseError};
ghost use Rattle.c_parser_actions.specs.Builds.{Found};

use c_lexer::Token;
use c_parser_actions::{PostfixError, actions};
use c_parser_depth::too_deep;
use c_parser_moves::Action;
use c_parser_nodes::node_count;
use c_parser_tree::{BuildError, build};
use c_syntax::Tree;
use std::alloc::{AllocError, Global};

/// A source that has a tree.
#[derive(Drop)]
pub struct Parsed {
    pub tree: Tree,
    /// How many nodes it has (`c_parser_nodes`).
    pub nodes: usize,
}

/// Why tokens have no tree.
#[derive(Debug, Drop, thiserror::Error)]
pub enum ParseError {
    /// No source of the grammar has these tokens. The offset is that of the first token that can't go on, or of the
    /// end of the last one.
    #[error("no source has the token at {0}")]
    Token(u32),
    /// A source of the grammar has these tokens, and more than 200 nodes hold one of its nodes, which is at this offset.
    #[error("more than 200 nodes hold the one at {0}")]
    Deep(u32),
    #[error("out of memory")]
    Memory,
}

impl From<AllocError> for ParseError {
    ghost use Rattle.c_parser.specs.declared.parsing.ParseError.TheVariants.{Memory};

    ghost from_gives = { λ _ e. e ≡ Memory };

    fn from(error: AllocError) -> Self {
        let _ = error;
        ParseError::Memory
    }
}

/// The actions that build the source which has these tokens, for `build_counted`.
pub fn postfix(alloc: Global, tokens: &[Token]) -> Result<Vec<Action>, ParseError>
    // They build the source which has these tokens.
    ensures found { IfOk result (λ v. Found tokens.now v.items) }
    // Tokens are refused that no source has.
    ensures refused { IfErr result (λ e. IsParseError tokens.now e) }
{
    match actions(alloc, tokens) {
        Ok(actions) => Ok(actions),
        Err(PostfixError::Token(place)) => Err(ParseError::Token(place)),
        Err(PostfixError::Memory) => Err(ParseError::Memory),
    }
}

/// The tree that these actions build, and how many nodes it has.
///
/// Depth is tested before a tree is built, so that a tree's values in braces are dropped without deep recursion.
pub fn build_counted(alloc: Global, actions: Vec<Action>) -> Result<Parsed, ParseError>
    // They build the source which some tokens have.
    requires { (ts : List Lexed) × Found ts actions.items }
    // The tree is that of this source, and no more than 200 nodes hold any of its nodes, which are so many.
    ensures counted { (ts : List Lexed) → Found ts actions.items → IfOk result (λ p. IsCounted ts p) }
    // It is refused where more than 200 nodes hold one of its nodes.
    ensures refused { (ts : List Lexed) → Found ts actions.items → IfErr result (λ e. IsParseError ts e) }
{
    if let Some(place) = too_deep(alloc, actions.as_slice())? {
        return Err(ParseError::Deep(place));
    }
    let nodes = node_count(alloc, actions.as_slice())?;
    match build(alloc, actions) {
        Ok(tree) => Ok(Parsed { tree, nodes }),
        Err(BuildError::Unfit) => unreachable!(),
        Err(BuildError::Memory) => Err(ParseError::Memory),
    }
}

/// The tree of the source that has these tokens, and how many nodes it has. Tokens are those of one source at most
/// (`c_parser_actions::one_tree`).
pub fn parse_counted(alloc: Global, tokens: &[Token]) -> Result<Parsed, ParseError>
    // The tree is that of the source which has these tokens, and no more than 200 nodes hold any of its nodes, which
    // are so many.
    ensures counted { IfOk result (λ p. IsCounted tokens.now p) }
    // Tokens are refused that no source has, or a source with a node that more than 200 others hold.
    ensures refused { IfErr result (λ e. IsParseError tokens.now e) }
{
    let actions = postfix(alloc, tokens)?;
    build_counted(alloc, actions)
}

/// The tree of the source that has these tokens.
pub fn parse(alloc: Global, tokens: &[Token]) -> Result<Tree, ParseError>
    // The tree is that of the source which has these tokens, and no more than 200 nodes hold any of its nodes.
    ensures tree { IfOk result (λ t. IsParsed tokens.now t) }
    // Tokens are refused that no source has, or a source with a node that more than 200 others hold.
    ensures refused { IfErr result (λ e. IsParseError tokens.now e) }
{
    match parse_counted(alloc, tokens) {
        Ok(parsed) => Ok(parsed.tree),
        Err(error) => Err(error),
    }
}
