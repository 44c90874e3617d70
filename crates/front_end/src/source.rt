//! Sources from bytes.

ghost use Rattle.std.specs.Prelude.{◌≡◌, ◌≤◌, List, ℕ, IfErr, IfOk, length};
ghost use Rattle.source_limits.specs.Limits.{most_bytes};
ghost use Rattle.c_lexer.specs.Lexing.{IsTokens};
ghost use Rattle.c_lexer.specs.declared.token.Token.{Token as Lexed};
ghost use Rattle.c_syntax.specs.Stands.{Holds};
ghost use Rattle.c_syntax.specs.Syntax.{Decls};
ghost use Rattle.c_parser.specs.Parsed.{IsCounted};
ghost use Rattle.c_types.specs.Answers.{IsSource as IsFit};
ghost use Rattle.c_types.specs.Texts.{texts_among};
ghost use Rattle.front_end.specs.Answers.{IsChecked, IsRead, IsTypeChecked, IsTypeError, IsTyped};
ghost use Rattle.front_end.specs.Sources.{IsSource};

use crate::code::code_of;
use crate::error::SourceError;
use annot_reader::{Iface, interface_of};
use c_code::Code;
use c_lexer::{Kind, Token, lex};
use c_parser::{Parsed, build_counted, postfix};
use c_syntax::Tree;
use c_syntax_laws::numbers_fit;
use c_types::check;
use c_types_program::TypedProgram;
use c_types_source::TypedSource;
use std::alloc::Global;

/// A source that keeps all rules and limits of types, with the number of its nodes, whatever its annotations say.
#[derive(Drop)]
pub struct CountedSource {
    pub source: TypedSource,
    pub nodes: usize,
}

/// A source that is accepted: its typed program, the interface of the cut, and its flat code.
#[derive(Drop)]
pub struct CheckedSource {
    pub program: TypedProgram,
    pub interface: Iface,
    pub code: Code,
}

// The tokens that the bytes are.
fn tokens_of(alloc: Global, bytes: &[u8]) -> Result<Vec<Token>, SourceError>
    requires { length bytes.now ≤ most_bytes }
    ensures tokens { IfOk result (λ v. IsTokens bytes.now v.items) }
    ensures few { IfOk result (λ v. length v.items ≤ length bytes.now) }
    ensures refused { IfErr result (IsTypeError bytes.now) }
{
    match lex(alloc, bytes) {
        Ok(tokens) => Ok(tokens),
        Err(error) => Err(SourceError::from(error)),
    }
}

// The strings among the tokens, in place of all tokens, whose memory is given back.
fn strings_of(tokens: Vec<Token>) -> Vec<Token>
    ensures { texts_among result.items ≡ texts_among tokens.items }
{
    let mut tokens = tokens;
    tokens.retain(|token| matches!(token.kind, Kind::Text(_)));
    tokens.shrink_to_fit();
    tokens
}

// The tree of the source that has these tokens, with its number of nodes, and the strings among the tokens. The others are given back
// before there is a tree.
fn tree_of(alloc: Global, tokens: Vec<Token>) -> Result<(Parsed, Vec<Token>), SourceError>
    ensures tree { IfOk result (λ found. IsCounted tokens.items found.0) }
    ensures strings { IfOk result (λ found. texts_among found.1.items ≡ texts_among tokens.items) }
    ensures refused { (bytes : List ℕ) → IsTokens bytes tokens.items → IfErr result (IsTypeError bytes) }
{
    let actions = match postfix(alloc, &tokens) {
        Ok(actions) => actions,
        Err(error) => return Err(SourceError::from(error)),
    };
    let strings = strings_of(tokens);
    match build_counted(alloc, actions) {
        Ok(parsed) => Ok((parsed, strings)),
        Err(error) => Err(SourceError::from(error)),
    }
}

// What the source is by its types.
fn typed(alloc: Global, tokens: &[Token], tree: Tree) -> Result<TypedSource, SourceError>
    requires { IsFit tree }
    ensures typed { (ds : Decls) → Holds tree ds → IfOk result (IsTyped tokens.now ds) }
    ensures refused { (bytes : List ℕ) (ds : Decls) → Holds tree ds → IsSource bytes ds →
        IfErr result (IsTypeError bytes) }
{
    match check(alloc, tokens, tree) {
        Ok(source) => Ok(source),
        Err(error) => Err(SourceError::from(error)),
    }
}

/// The source that these bytes are, at most 1 MiB, by its types alone: for whoever asks for all its cuts (`cut_advisor::cuts`).
///
/// `Fault` names a rule of tokens, of the grammar or of types that the source breaks, with the offset where; `Limit` the first limit of
/// its types that it exceeds, where it breaks no rule; `Memory` where there is no memory. Each but `Memory` is an error of `check_source`
/// too, whatever the cut.
pub fn typed_source(alloc: Global, bytes: &[u8]) -> Result<CountedSource, SourceError>
    requires { length bytes.now ≤ most_bytes }
    // The source is given where nothing is wrong with its tokens, its tree and its types; else this is.
    ensures typed { IsTypeChecked bytes.now result }
    ensures few { IfOk result (λ s. length s.source.texts ≤ length bytes.now) }
{
    let tokens = tokens_of(alloc, bytes)?;
    let (parsed, strings) = tree_of(alloc, tokens)?;
    numbers_fit();
    let Parsed { tree, nodes } = parsed;
    let source = typed(alloc, &strings, tree)?;
    Ok(CountedSource { source, nodes })
}

// The typed program with the interface of the cut.
fn with_interface(
    alloc: Global,
    source: TypedSource,
    cut: &[u8],
) -> Result<(TypedProgram, Iface), SourceError>
    ensures { (bytes : List ℕ) (ds : Decls) → (s : IsSource bytes ds) → (t : IsTyped s.tokens ds source) →
        IsRead bytes cut.now ds t.program source.texts result }
{
    match interface_of(alloc, source, cut) {
        Ok((source, interface)) => Ok((source.into_program(), interface)),
        Err(error) => Err(SourceError::from(error)),
    }
}

/// The source that these bytes are, at most 1 MiB, with the interface of the cut and its flat code.
///
/// `Fault` names a rule that the source breaks, with the offset where; `Limit` the first limit of its types that it exceeds, where it
/// breaks no rule of types; `NoSuchCut` where all rules hold and no declaration names the cut; then `Limit` where it has more than 131,072
/// nodes, or the evaluation stack is deeper than 64 values in one of its functions; `Memory` where there is no memory.
pub fn check_source(alloc: Global, bytes: &[u8], cut: &[u8]) -> Result<CheckedSource, SourceError>
    requires { length bytes.now ≤ most_bytes }
    // The source is accepted where nothing is wrong with it; else this is.
    ensures { IsChecked bytes.now cut.now result }
{
    let CountedSource { source, nodes } = typed_source(alloc, bytes)?;
    let (program, interface) = with_interface(alloc, source, cut)?;
    let code = code_of(alloc, nodes, &program)?;
    Ok(CheckedSource {
        program,
        interface,
        code,
    })
}
