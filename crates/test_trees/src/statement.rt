// Statements, and the locals in them.

ghost use Rattle.test_trees.specs.Parts.{MaybeExpr, IsExpr, IsStmt, IsDecl, AreDecls};
ghost use Rattle.test_trees.specs.Parts.{AreEntries, EntryFits, FirstFits, MaybeStmt, RestFits};

use crate::expression::{show_declarator, show_declarators, show_expr};
use crate::node::{decl_rest, stmt_kind};
use crate::value::show_value;
use c_syntax::{DeclId, Entry, ExprId, First, Rest, StmtId, StmtKind, Tree};
use test_cases::Output;

/// A space and the expression, if there is one.
fn show_maybe(tree: &Tree, id: Option<ExprId>, depth: u8, out: &mut Output)
    requires { MaybeExpr tree.now id }
{
    if let Some(id) = id {
        out.put(" ");
        show_expr(tree, id, depth, out);
    }
}

/// The declarator, and the value or the members that follow it. A body is left out.
pub fn show_data(tree: &Tree, id: DeclId, depth: u8, out: &mut Output)
    requires { IsDecl tree.now id }
{
    show_declarator(tree, id, depth, out);
    match decl_rest(tree, id) {
        Rest::None => {}
        Rest::Body(_) => {}
        Rest::Value(value) => {
            out.put(" = ");
            show_value(tree, value, depth, out);
        }
        Rest::Members(members) => {
            out.put(" {");
            show_declarators(tree, members.as_slice(), depth, out);
            out.put(" }");
        }
    }
}

/// The names of a declaration, each with a space before it.
fn show_locals(tree: &Tree, ids: &[DeclId], depth: u8, out: &mut Output)
    requires { AreDecls tree.now ids.now }
{
    for id in ids {
        out.put(" ");
        show_data(tree, *id, depth, out);
    }
}

/// The first part of a `for`, with a space before it.
fn show_first(tree: &Tree, first: &First, depth: u8, out: &mut Output)
    requires { FirstFits tree.now first.now }
{
    match first {
        First::None => {}
        First::Local(ids) => show_locals(tree, ids.as_slice(), depth, out),
        First::Expr(id) => show_maybe(tree, Some(*id), depth, out),
    }
}

/// The statement, to so many nodes below one another.
#[cycle(statement)]
pub fn show_stmt(tree: &Tree, id: StmtId, depth: u8, out: &mut Output)
    requires { IsStmt tree.now id }
{
    if depth == 0 {
        out.put("..");
        return;
    }
    out.put("(");
    show_kind(tree, id, depth - 1, out);
    out.put(")");
}

#[cycle(statement)]
fn show_kind(tree: &Tree, id: StmtId, depth: u8, out: &mut Output)
    requires { IsStmt tree.now id }
{
    match stmt_kind(tree, id) {
        StmtKind::Block(entries) => {
            out.put("block");
            show_entries(tree, entries.as_slice(), depth, out);
        }
        StmtKind::Expr(value) => {
            out.put("expr");
            show_maybe(tree, *value, depth, out);
        }
        StmtKind::If(test, then, otherwise) => {
            out.put("if ");
            show_expr(tree, *test, depth, out);
            show_after(tree, *then, depth, out);
            if let Some(otherwise) = otherwise {
                show_after(tree, *otherwise, depth, out);
            }
        }
        StmtKind::While(test, body) => {
            out.put("while ");
            show_expr(tree, *test, depth, out);
            show_after(tree, *body, depth, out);
        }
        StmtKind::Do(body, test) => {
            out.put("do");
            show_after(tree, *body, depth, out);
            show_maybe(tree, Some(*test), depth, out);
        }
        StmtKind::For(first, test, step, body) => {
            out.put("for");
            show_first(tree, first, depth, out);
            out.put(";");
            show_maybe(tree, *test, depth, out);
            out.put(";");
            show_maybe(tree, *step, depth, out);
            out.put(";");
            show_after(tree, *body, depth, out);
        }
        StmtKind::Break => out.put("break"),
        StmtKind::Continue => out.put("continue"),
        StmtKind::Return(value) => {
            out.put("return");
            show_maybe(tree, *value, depth, out);
        }
    }
}

/// A space and the statement.
#[cycle(statement)]
fn show_after(tree: &Tree, id: StmtId, depth: u8, out: &mut Output)
    requires { IsStmt tree.now id }
{
    out.put(" ");
    show_stmt(tree, id, depth, out);
}

/// What stands in a block, each with a space before it.
#[cycle(statement)]
fn show_entries(tree: &Tree, entries: &[Entry], depth: u8, out: &mut Output)
    requires { AreEntries tree.now entries.now }
{
    for entry in entries {
        show_entry(tree, entry, depth, out);
    }
}

#[cycle(statement)]
fn show_entry(tree: &Tree, entry: &Entry, depth: u8, out: &mut Output)
    requires { EntryFits tree.now entry.now }
{
    match entry {
        Entry::Local(ids) => show_locals(tree, ids.as_slice(), depth, out),
        Entry::Stmt(id) => show_after(tree, *id, depth, out),
    }
}
