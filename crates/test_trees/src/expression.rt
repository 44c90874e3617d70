// Expressions, and the declarators in them.

ghost use Rattle.test_trees.specs.Parts.{IsExpr, AreExprs, IsDecl, AreDecls, AreParts};
ghost use Rattle.test_trees.specs.Parts.{KindFits, AtomFits, ItemFits, AreItems, AreAnnots};

use crate::node::{decl_node, expr_kind};
use crate::words::{put_base, put_char, put_name, put_string};
use c_syntax::{Annot, Atom, DeclId, ExprId, ExprKind, Item, Part, PartKind, Tree};
use test_cases::Output;

/// The expression, to so many nodes below one another.
#[cycle(expression)]
pub fn show_expr(tree: &Tree, id: ExprId, depth: u8, out: &mut Output)
    requires { IsExpr tree.now id }
{
    if depth == 0 {
        out.put("..");
        return;
    }
    let below = depth - 1;
    match expr_kind(tree, id) {
        ExprKind::Name(name) => out.put_bytes(name.as_slice()),
        ExprKind::Number { value, .. } => out.put_number(*value),
        ExprKind::Char(value) => put_char(out, *value),
        ExprKind::Text(text) => put_string(out, text),
        ExprKind::Binary(sign, a, b) => show_group(tree, sign.text(), &[*a, *b], below, out),
        ExprKind::Assign(sign, a, b) => show_group(tree, sign.text(), &[*a, *b], below, out),
        ExprKind::Cond(a, b, c) => show_group(tree, b"?", &[*a, *b, *c], below, out),
        ExprKind::Prefix(sign, a) => show_group(tree, sign.text(), &[*a], below, out),
        ExprKind::Postfix(sign, a) => show_then(tree, *a, sign.text(), b"", below, out),
        ExprKind::SizeofExpr(a) => show_group(tree, b"sizeof", &[*a], below, out),
        ExprKind::SizeofType(of) => show_typed(tree, "(sizeof ", *of, &[], below, out),
        ExprKind::Cast(to, a) => show_typed(tree, "(cast ", *to, &[*a], below, out),
        ExprKind::Index(a, at) => show_group(tree, b"index", &[*a, *at], below, out),
        ExprKind::Call(callee, arguments) => {
            out.put("(call");
            show_exprs(tree, &[*callee], below, out);
            show_exprs(tree, arguments.as_slice(), below, out);
            out.put(")");
        }
        ExprKind::Member(a, name) => show_then(tree, *a, b".", name.as_slice(), below, out),
        ExprKind::Arrow(a, name) => show_then(tree, *a, b"->", name.as_slice(), below, out),
    }
}

/// The expressions, each with a space before it.
#[cycle(expression)]
fn show_exprs(tree: &Tree, ids: &[ExprId], depth: u8, out: &mut Output)
    requires { AreExprs tree.now ids.now }
{
    for id in ids {
        out.put(" ");
        show_expr(tree, *id, depth, out);
    }
}

/// A word and the expressions after it, in brackets.
#[cycle(expression)]
fn show_group(tree: &Tree, word: &[u8], ids: &[ExprId], depth: u8, out: &mut Output)
    requires { AreExprs tree.now ids.now }
{
    out.put("(");
    out.put_bytes(word);
    show_exprs(tree, ids, depth, out);
    out.put(")");
}

/// The expression with a sign and a name after it, in brackets.
#[cycle(expression)]
fn show_then(tree: &Tree, id: ExprId, sign: &[u8], name: &[u8], depth: u8, out: &mut Output)
    requires { IsExpr tree.now id }
{
    out.put("(");
    show_expr(tree, id, depth, out);
    out.put(" ");
    out.put_bytes(sign);
    out.put_bytes(name);
    out.put(")");
}

/// What opens a bracket, the type name and the expressions after it, and the end of the bracket.
#[cycle(expression)]
fn show_typed(tree: &Tree, open: &str, name: DeclId, ids: &[ExprId], depth: u8, out: &mut Output)
    requires name { IsDecl tree.now name }
    requires ids { AreExprs tree.now ids.now }
{
    out.put(open);
    show_declarator(tree, name, depth, out);
    show_exprs(tree, ids, depth, out);
    out.put(")");
}

/// Annotations, type, parts of the declarator from the farthest to the nearest, and name, in brackets.
#[cycle(expression)]
pub fn show_declarator(tree: &Tree, id: DeclId, depth: u8, out: &mut Output)
    requires { IsDecl tree.now id }
{
    if depth == 0 {
        out.put("..");
        return;
    }
    let decl = decl_node(tree, id);
    out.put("(");
    show_annots(tree, decl.annots.as_slice(), depth - 1, out);
    put_base(out, &decl.base);
    show_parts(tree, decl.parts.as_slice(), depth - 1, out);
    put_name(out, &decl.name);
    out.put(")");
}

/// The declarators, each with a space before it.
#[cycle(expression)]
pub fn show_declarators(tree: &Tree, ids: &[DeclId], depth: u8, out: &mut Output)
    requires { AreDecls tree.now ids.now }
{
    for id in ids {
        out.put(" ");
        show_declarator(tree, *id, depth, out);
    }
}

/// The parts of a declarator, each with a space before it.
#[cycle(expression)]
fn show_parts(tree: &Tree, parts: &[Part], depth: u8, out: &mut Output)
    requires { AreParts tree.now parts.now }
{
    for part in parts {
        out.put(" ");
        show_part(tree, &part.kind, depth, out);
    }
}

#[cycle(expression)]
fn show_part(tree: &Tree, kind: &PartKind, depth: u8, out: &mut Output)
    requires { KindFits tree.now kind.now }
{
    match kind {
        PartKind::Pointer => out.put("*"),
        PartKind::Array(length) => show_group(tree, b"array", &[*length], depth, out),
        PartKind::Params(params) => {
            out.put("(params");
            show_declarators(tree, params.as_slice(), depth, out);
            out.put(")");
        }
    }
}

/// The annotations, each with a space after it.
#[cycle(expression)]
fn show_annots(tree: &Tree, annots: &[Annot], depth: u8, out: &mut Output)
    requires { AreAnnots tree.now annots.now }
{
    for annot in annots {
        out.put("[");
        out.put_bytes(annot.name.as_slice());
        show_items(tree, annot.items.as_slice(), depth, out);
        out.put("] ");
    }
}

/// The items of an annotation, each with a space before it.
#[cycle(expression)]
fn show_items(tree: &Tree, items: &[Item], depth: u8, out: &mut Output)
    requires { AreItems tree.now items.now }
{
    for item in items {
        out.put(" ");
        show_item(tree, item, depth, out);
    }
}

/// The factors, joined by a `*`.
#[cycle(expression)]
fn show_item(tree: &Tree, item: &Item, depth: u8, out: &mut Output)
    requires { ItemFits tree.now item.now }
{
    show_atom(tree, &item.a, depth, out);
    if let Some(second) = &item.b {
        out.put(" * ");
        show_atom(tree, second, depth, out);
    }
}

#[cycle(expression)]
fn show_atom(tree: &Tree, atom: &Atom, depth: u8, out: &mut Output)
    requires { AtomFits tree.now atom.now }
{
    match atom {
        Atom::Name(name) => out.put_bytes(name.as_slice()),
        Atom::Number(value) => out.put_number(*value),
        Atom::Return => out.put("return"),
        Atom::Sizeof(of) => show_typed(tree, "(sizeof ", *of, &[], depth, out),
    }
}
