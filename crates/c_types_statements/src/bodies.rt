//! What functions do (C11 6.9.1).

ghost use Rattle.std.specs.Prelude.{◌≡◌, ◌<◌, length, IfOk};
ghost use Rattle.std.specs.List.{All};
ghost use Rattle.c_syntax.specs.Stands.{StandDecls, StandParts, StandsStmt};
ghost use Rattle.c_syntax.specs.Syntax.{Decls, Parts, Stmt};
ghost use Rattle.c_types_model.specs.Types.{CType};
ghost use Rattle.c_types_table.specs.Tables.{IsBelow, type_at};
ghost use Rattle.c_types_rules.specs.Checked.{heard};
ghost use Rattle.c_types_rules.specs.Environment.{inner};
ghost use Rattle.c_types_rules.specs.Expressions.{parameter_types as parameters_by_rules};
ghost use Rattle.c_types_rules.specs.Sources.{block_body as block_body_by_rules, block_of, body_of};
ghost use Rattle.c_types_nodes.specs.Lists.{AreNodes, nodes_at};
ghost use Rattle.c_types_expressions.specs.Found.{Finds, IsPart, Stays, StaysAround};
ghost use Rattle.c_types_expressions.specs.Walks.{AreDecls, AreParts};
ghost use Rattle.c_types_statements.specs.Pieces.{body_here as body_here_by_rules};
ghost use Rattle.c_types_statements.specs.Typed.{BodyStands, IsSignature, IsTyped, declared_in, place_in};
ghost use Rattle.c_types_statements.specs.Walks.{IsStmt};

use crate::made;
use crate::parameters::declare_parameters;
use crate::place::Surroundings;
use crate::signature::{Signature, nearest_params, signature_of};
use crate::statements::{entries, statement};
use c_syntax::{DeclId, Part, StmtId, StmtKind, Tree};
use c_types_environment::Environment;
use c_types_expressions::parameter_types;
use c_types_nodes::NodeIds;
use c_types_operators::TypeError;
use c_types_program::{Body, Statement};
use c_types_table::{TypeId, TypeIds};

// The outermost block of a function, whose scope is the innermost one.
fn outermost(
    env: &mut Environment,
    locals: &mut Vec<TypeId>,
    tree: &Tree,
    id: StmtId,
    place: Surroundings,
) -> Result<Statement, TypeError>
    requires id { IsStmt tree.now id }
    requires place { IsBelow (length env.old.table.types) place.result }
    requires locals { All (IsBelow (length env.old.table.types)) locals.old.items }
    ensures agrees { (s : Stmt) → StandsStmt tree.now id s →
        Finds env.old env.new (IsTyped env.new locals.new.items)
        (block_of s (place_in env.old place) (declared_in env.old locals.old.items)) result }
    ensures kept { StaysAround env.old env.new }
    ensures locals { All (IsBelow (length env.new.table.types)) locals.new.items }
{
    match &tree.stmt(id).kind {
        StmtKind::Block(items) => {
            let statements = entries(env, locals, tree, items.as_slice(), place)?;
            Ok(made::block(statements))
        }
        _ => statement(env, locals, tree, id, place),
    }
}

// The same, with what stands in it unevaluated.
fn heard_block(
    env: &mut Environment,
    locals: &mut Vec<TypeId>,
    tree: &Tree,
    id: StmtId,
    place: Surroundings,
) -> Result<(Statement, NodeIds), TypeError>
    requires id { IsStmt tree.now id }
    requires place { IsBelow (length env.old.table.types) place.result }
    requires locals { All (IsBelow (length env.old.table.types)) locals.old.items }
    ensures agrees { (s : Stmt) → StandsStmt tree.now id s →
        Finds env.old env.new (IsPart env.new (IsTyped env.new locals.new.items))
        (heard (block_of s (place_in env.old place) (declared_in env.old locals.old.items))) result }
    ensures kept { StaysAround env.old env.new }
    ensures locals { All (IsBelow (length env.new.table.types)) locals.new.items }
    ensures inside { IfOk result (λ y. AreNodes env.new.table y.1) }
{
    let before = env.set_aside();
    let statement = outermost(env, locals, tree, id, place)?;
    Ok((statement, env.part_unevaluated(before)))
}

// What a function of this signature does, whose parameters belong into the innermost scope.
fn body_here(
    env: &mut Environment,
    tree: &Tree,
    ids: &[DeclId],
    signature: Signature,
    id: StmtId,
) -> Result<Body, TypeError>
    requires ids { AreDecls tree.now ids.now }
    requires id { IsStmt tree.now id }
    requires result { IsBelow (length env.old.table.types) signature.result }
    requires params { All (IsBelow (length env.old.table.types)) signature.params.items }
    ensures agrees { (c : CType) (ds : Decls) (s : Stmt) → IsSignature env.old.table.types c signature →
        StandDecls tree.now ids.now ds → StandsStmt tree.now id s →
        Finds env.old env.new (BodyStands env.new.table) (body_here_by_rules env.old.env c ds s) result }
    ensures kept { StaysAround env.old env.new }
{
    let mut locals = signature.params;
    declare_parameters(env, tree, ids, &locals)?;
    let place = Surroundings {
        result: signature.result,
        in_loop: false,
    };
    let (statements, unevaluated) = heard_block(env, &mut locals, tree, id, place)?;
    Ok(Body {
        from: tree.stmt(id).from,
        locals: TypeIds::from(locals),
        statements,
        in_params: NodeIds::from(Vec::new(env.alloc())),
        unevaluated,
    })
}

// What a function of this type does in its block.
fn block_body(
    env: &mut Environment,
    tree: &Tree,
    ty: TypeId,
    parts: &[Part],
    id: StmtId,
) -> Result<Body, TypeError>
    requires ty { ty.0 < length env.old.table.types }
    requires parts { AreParts tree.now parts.now }
    requires id { IsStmt tree.now id }
    ensures agrees { (ps : Parts) (s : Stmt) → StandParts tree.now parts.now ps →
        StandsStmt tree.now id s → Finds env.old env.new (BodyStands env.new.table)
        (block_body_by_rules env.old.env (type_at env.old.table.types ty) ps s) result }
    ensures kept { Stays env.old env.new }
{
    let signature = signature_of(env, ty)?;
    env.open_scope()?;
    let body = body_here(env, tree, nearest_params(parts), signature, id);
    env.close_scope();
    body
}

// What stands unevaluated in parameters.
fn heard_parameters(
    env: &mut Environment,
    tree: &Tree,
    ids: &[DeclId],
) -> Result<NodeIds, TypeError>
    requires { AreDecls tree.now ids.now }
    ensures agrees { (ds : Decls) → StandDecls tree.now ids.now ds →
        Finds env.old env.new (λ x y. nodes_at env.new.table y ≡ x.1)
        (heard (parameters_by_rules ds (inner env.old.env) 0)) result }
    ensures kept { Stays env.old env.new }
    ensures inside { IfOk result (AreNodes env.new.table) }
{
    let before = env.set_aside();
    parameter_types(env, tree, ids)?;
    Ok(env.part_unevaluated(before))
}

// The body, where these nodes stand unevaluated in its parameters.
fn with_params(in_params: NodeIds, body: Body) -> Body
    ensures { result ≡ record body { in_params = in_params } }
{
    let Body {
        from,
        locals,
        statements,
        in_params: before,
        unevaluated,
    } = body;
    drop(before);
    Body {
        from,
        locals,
        statements,
        in_params,
        unevaluated,
    }
}

/// What a function of this type does, by the parts of its declarator and its block. Its parameters are in the scope of that block
/// (C11 6.2.1, 4); they are typed once more for what stands in them unevaluated.
///
/// `Rule` names the first rule that is broken in it, with the offset of the node that breaks it. Notes where an object is too large.
pub fn body(
    env: &mut Environment,
    tree: &Tree,
    ty: TypeId,
    parts: &[Part],
    id: StmtId,
) -> Result<Body, TypeError>
    requires ty { ty.0 < length env.old.table.types }
    // They stand for parts, and the number for a statement, whose numbers are such as tokens are.
    requires parts { AreParts tree.now parts.now }
    requires id { IsStmt tree.now id }
    // Where they stand for ps and s, the answer is what the rules say of these.
    ensures agrees { (ps : Parts) (s : Stmt) → StandParts tree.now parts.now ps →
        StandsStmt tree.now id s → Finds env.old env.new (BodyStands env.new.table)
        (body_of env.old.env (type_at env.old.table.types ty) ps s) result }
    // What is declared, and what numbers stand for, is as before, also after an error.
    ensures kept { Stays env.old env.new }
{
    let in_params = heard_parameters(env, tree, nearest_params(parts))?;
    let body = block_body(env, tree, ty, parts, id)?;
    Ok(with_params(in_params, body))
}
