// Whole sources.

ghost use Rattle.test_trees.specs.Parts.{IsDecl, IsSource};

use crate::node::decl_rest;
use crate::statement::{show_data, show_stmt};
use c_lexer::lex;
use c_parser::{ParseError, parse};
use c_syntax::{DeclId, Rest, Tree};
use std::alloc::Global;
use test_cases::Output;

/// So many nodes are shown below one another, which is more than a tree of `c_parser` has.
const DEPTH: u8 = 255;

/// The longest source in bytes.
const MOST: usize = 1_048_576;

/// A declaration of the source, and its body after it.
fn show_top(tree: &Tree, id: DeclId, out: &mut Output)
    requires { IsDecl tree.now id }
{
    show_data(tree, id, DEPTH, out);
    if let Rest::Body(body) = decl_rest(tree, id) {
        out.put(" ");
        show_stmt(tree, *body, DEPTH, out);
    }
}

/// The tree, a line for each of its declarations.
fn show(tree: &Tree, out: &mut Output)
    // The tree is that of some source.
    requires { IsSource tree.now }
{
    for id in tree.top() {
        if !out.is_empty() {
            out.put("\n");
        }
        show_top(tree, *id, out);
    }
}

/// Why a source has no tree, in words.
fn show_error(error: ParseError, out: &mut Output) {
    let (word, at) = match error {
        ParseError::Token(at) => ("token ", u64::from(at)),
        ParseError::Deep(at) => ("deep ", u64::from(at)),
        ParseError::Memory => ("memory ", 0),
    };
    out.put("error ");
    out.put(word);
    out.put_number(at);
}

/// The tree of the source, a line for each of its declarations, or a line that says why it has none: `error
/// token 11` where no source goes on with the token at byte 11, `error deep 223` where more than 200 nodes
/// hold the one at byte 223.
///
/// An expression with operands is shown in brackets, its sign first, as `(- (- a b) c)`, or after its
/// operand, as `(a --)`, `(a .m)`. A declarator is its type and then its parts, from the farthest to the
/// nearest, and its name, as `(i32 * (array 3) a)` for `int *a[3]`. A statement is its word and its parts, as
/// `(if a (return 1))`. `..` stands for what lies below 255 nodes.
pub fn show_source(alloc: Global, source: &str) -> Output {
    let mut out = Output::new(alloc);
    let bytes = source.as_bytes();
    if bytes.len() > MOST {
        out.put("too long");
        return out;
    }
    let Ok(tokens) = lex(alloc, bytes) else {
        out.put("no tokens");
        return out;
    };
    match parse(alloc, tokens.as_slice()) {
        Ok(tree) => show(&tree, &mut out),
        Err(error) => show_error(error, &mut out),
    }
    out
}
