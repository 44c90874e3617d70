//! Which nodes a node names, in the order of the source.

ghost use Rattle.std.specs.Prelude.{◌≡◌, ◌++◌, OnOk};
ghost use Rattle.c_syntax_laws.specs.Named.{by_decls, by_exprs, by_annots, by_expr, by_first, by_entries, by_items, by_parts, by_rest, by_stmt, by_value, by_maybe, by_second, by_decl, by_atom, by_entry, by_item, by_kind, by_choice};

use c_syntax::{
    Annot, Atom, Decl, DeclId, Entry, ExprId, ExprKind, First, Item, Part, PartKind, Rest, StmtId,
    StmtKind, Value,
};
use c_syntax_laws::Node;
use std::alloc::AllocError;

fn exprs(ids: &[ExprId], held: &mut Vec<Node>) -> Result<(), AllocError>
    ensures { OnOk result (held.new.items ≡ held.old.items ++ by_exprs ids.now) }
{
    for id in ids {
        held.push(Node::Expr(*id))?;
    }
    Ok(())
}

fn maybe(id: Option<ExprId>, held: &mut Vec<Node>) -> Result<(), AllocError>
    ensures { OnOk result (held.new.items ≡ held.old.items ++ by_maybe id) }
{
    let Some(id) = id else {
        return Ok(());
    };
    held.push(Node::Expr(id))?;
    Ok(())
}

/// The declarations.
pub fn decls(ids: &[DeclId], held: &mut Vec<Node>) -> Result<(), AllocError>
    ensures { OnOk result (held.new.items ≡ held.old.items ++ by_decls ids.now) }
{
    for id in ids {
        held.push(Node::Decl(*id))?;
    }
    Ok(())
}

/// What an expression names.
pub fn in_expr(kind: &ExprKind, held: &mut Vec<Node>) -> Result<(), AllocError>
    ensures { OnOk result (held.new.items ≡ held.old.items ++ by_expr kind.now) }
{
    match kind {
        ExprKind::Name(_) | ExprKind::Number { .. } | ExprKind::Char(_) | ExprKind::Text(_) => Ok(
            (),
        ),
        ExprKind::Binary(_, a, b) | ExprKind::Assign(_, a, b) | ExprKind::Index(a, b) => exprs(
            &[*a, *b],
            held,
        ),
        ExprKind::Cond(a, b, c) => exprs(&[*a, *b, *c], held),
        ExprKind::Prefix(_, a) | ExprKind::Postfix(_, a) | ExprKind::SizeofExpr(a) => exprs(
            &[*a],
            held,
        ),
        ExprKind::Member(a, _) | ExprKind::Arrow(a, _) => exprs(&[*a], held),
        ExprKind::SizeofType(of) => decls(&[*of], held),
        ExprKind::Cast(to, a) => {
            decls(&[*to], held)?;
            exprs(&[*a], held)
        }
        ExprKind::Call(callee, arguments) => {
            exprs(&[*callee], held)?;
            exprs(arguments.as_slice(), held)
        }
    }
}

fn in_atom(atom: &Atom, held: &mut Vec<Node>) -> Result<(), AllocError>
    ensures { OnOk result (held.new.items ≡ held.old.items ++ by_atom atom.now) }
{
    match atom {
        Atom::Sizeof(of) => decls(&[*of], held),
        _ => Ok(()),
    }
}

fn in_item(item: &Item, held: &mut Vec<Node>) -> Result<(), AllocError>
    ensures { OnOk result (held.new.items ≡ held.old.items ++ by_item item.now) }
{
    in_atom(&item.a, held)?;
    match &item.b {
        None => Ok(()),
        Some(atom) => in_atom(atom, held),
    }
}

fn in_items(items: &[Item], held: &mut Vec<Node>) -> Result<(), AllocError>
    ensures { OnOk result (held.new.items ≡ held.old.items ++ by_items items.now) }
{
    for item in items {
        in_item(item, held)?;
    }
    Ok(())
}

/// What annotations name.
pub fn in_annots(annots: &[Annot], held: &mut Vec<Node>) -> Result<(), AllocError>
    ensures { OnOk result (held.new.items ≡ held.old.items ++ by_annots annots.now) }
{
    for annot in annots {
        in_items(annot.items.as_slice(), held)?;
    }
    Ok(())
}

fn in_part(part: &PartKind, held: &mut Vec<Node>) -> Result<(), AllocError>
    ensures { OnOk result (held.new.items ≡ held.old.items ++ by_kind part.now) }
{
    match part {
        PartKind::Pointer => Ok(()),
        PartKind::Array(length) => exprs(&[*length], held),
        PartKind::Params(params) => decls(params.as_slice(), held),
    }
}

/// What the parts of a declarator name.
pub fn in_parts(parts: &[Part], held: &mut Vec<Node>) -> Result<(), AllocError>
    ensures { OnOk result (held.new.items ≡ held.old.items ++ by_parts parts.now) }
{
    for part in parts {
        in_part(&part.kind, held)?;
    }
    Ok(())
}

fn in_value(value: &Value, held: &mut Vec<Node>) -> Result<(), AllocError>
    ensures { OnOk result (held.new.items ≡ held.old.items ++ by_value value.now) }
{
    match value {
        Value::Plain(id) => exprs(&[*id], held),
        Value::Braces { values, .. } => {
            for value in values {
                in_value(value, held)?;
            }
            Ok(())
        }
    }
}

/// What stands after a declarator.
pub fn in_rest(rest: &Rest, held: &mut Vec<Node>) -> Result<(), AllocError>
    ensures { OnOk result (held.new.items ≡ held.old.items ++ by_rest rest.now) }
{
    match rest {
        Rest::None => Ok(()),
        Rest::Value(value) => in_value(value, held),
        Rest::Body(body) => {
            held.push(Node::Stmt(*body))?;
            Ok(())
        }
        Rest::Members(members) => decls(members.as_slice(), held),
    }
}

/// What a declaration names.
pub fn in_decl(decl: &Decl, held: &mut Vec<Node>) -> Result<(), AllocError>
    ensures { OnOk result (held.new.items ≡ held.old.items ++ by_decl decl.now) }
{
    in_annots(decl.annots.as_slice(), held)?;
    in_parts(decl.parts.as_slice(), held)?;
    in_rest(&decl.rest, held)
}

fn in_entry(entry: &Entry, held: &mut Vec<Node>) -> Result<(), AllocError>
    ensures { OnOk result (held.new.items ≡ held.old.items ++ by_entry entry.now) }
{
    match entry {
        Entry::Local(locals) => decls(locals.as_slice(), held),
        Entry::Stmt(id) => {
            held.push(Node::Stmt(*id))?;
            Ok(())
        }
    }
}

fn in_entries(entries: &[Entry], held: &mut Vec<Node>) -> Result<(), AllocError>
    ensures { OnOk result (held.new.items ≡ held.old.items ++ by_entries entries.now) }
{
    for entry in entries {
        in_entry(entry, held)?;
    }
    Ok(())
}

fn in_first(first: &First, held: &mut Vec<Node>) -> Result<(), AllocError>
    ensures { OnOk result (held.new.items ≡ held.old.items ++ by_first first.now) }
{
    match first {
        First::None => Ok(()),
        First::Local(locals) => decls(locals.as_slice(), held),
        First::Expr(id) => exprs(&[*id], held),
    }
}

fn in_choice(
    test: ExprId,
    then: StmtId,
    otherwise: Option<StmtId>,
    held: &mut Vec<Node>,
) -> Result<(), AllocError>
    ensures { OnOk result (held.new.items ≡ held.old.items ++ by_choice test then otherwise) }
{
    held.push(Node::Expr(test))?;
    held.push(Node::Stmt(then))?;
    let Some(otherwise) = otherwise else {
        return Ok(());
    };
    held.push(Node::Stmt(otherwise))?;
    Ok(())
}

/// What a statement names.
pub fn in_stmt(kind: &StmtKind, held: &mut Vec<Node>) -> Result<(), AllocError>
    ensures { OnOk result (held.new.items ≡ held.old.items ++ by_stmt kind.now) }
{
    match kind {
        StmtKind::Break | StmtKind::Continue => Ok(()),
        StmtKind::Block(entries) => in_entries(entries.as_slice(), held),
        StmtKind::Expr(value) | StmtKind::Return(value) => maybe(*value, held),
        StmtKind::If(test, then, otherwise) => in_choice(*test, *then, *otherwise, held),
        StmtKind::While(test, body) => in_choice(*test, *body, None, held),
        StmtKind::Do(body, test) => {
            held.push(Node::Stmt(*body))?;
            exprs(&[*test], held)
        }
        StmtKind::For(first, test, last, body) => {
            in_first(first, held)?;
            maybe(*test, held)?;
            maybe(*last, held)?;
            held.push(Node::Stmt(*body))?;
            Ok(())
        }
    }
}
