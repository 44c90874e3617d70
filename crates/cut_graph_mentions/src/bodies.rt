//! What a function and the value of a global mention.

ghost use Rattle.std.specs.Prelude.{◌≡◌, IfOk};
ghost use Rattle.std.specs.Option.{option_map};
ghost use Rattle.c_types_nodes.specs.Lists.{AreNodes, nodes_at};
ghost use Rattle.c_types_program.specs.Statements.{IsStatement};
ghost use Rattle.c_types_program.specs.Declarations.{IsBody, IsFunction, IsGlobal, body_in, function_in, global_in};
ghost use Rattle.cut_graph_rules.specs.Mentions.{unevaluated_mentions};
ghost use Rattle.cut_graph_rules.specs.Sources.{body_mentions, function_mentions, global_mentions};
ghost use Rattle.cut_graph_mentions.specs.Growing.{IsAdded};

use crate::found::Found;
use crate::initials::given;
use crate::statements::statement;
use crate::values::node;
use c_syntax::Seq;
use c_types_nodes::{NodeId, NodeIds, TypedTable};
use c_types_program::{Body, Function, Global as GlobalObject};
use cut_graph_rules::Mention;
use std::alloc::{AllocError, Global};

fn nodes(table: &TypedTable, found: &mut Found, ids: &[NodeId])
    requires { AreNodes table.now ids.now }
    ensures { IsAdded found.old (unevaluated_mentions (nodes_at table.now ids.now)) found.new }
{
    for id in ids {
        node(table, found, false, false, *id);
    }
}

// What is never evaluated.
fn unevaluated(table: &TypedTable, found: &mut Found, ids: &NodeIds)
    requires { AreNodes table.now ids.now }
    ensures { IsAdded found.old (unevaluated_mentions (nodes_at table.now ids.now)) found.new }
{
    nodes(table, found, ids.as_slice());
}

fn body_parts(table: &TypedTable, found: &mut Found, body: &Body)
    requires statements { IsStatement table.now body.now.statements }
    requires unevaluated { AreNodes table.now body.now.unevaluated }
    ensures { IsAdded found.old (body_mentions (body_in table.now body.now)) found.new }
{
    statement(table, found, &body.statements);
    unevaluated(table, found, &body.unevaluated);
}

fn maybe_body(table: &TypedTable, found: &mut Found, body: &Option<Body>)
    requires { IsBody table.now body.now }
    ensures { IsAdded found.old (function_mentions (option_map (body_in table.now) body.now)) found.new }
{
    match body {
        None => {}
        Some(body) => body_parts(table, found, body),
    }
}

fn global_parts(table: &TypedTable, found: &mut Found, global: &GlobalObject)
    requires { AreNodes table.now global.now.unevaluated }
    ensures { IsAdded found.old (global_mentions (global_in table.now global.now)) found.new }
{
    given(found, &global.value);
    unevaluated(table, found, &global.unevaluated);
}

/// What a function mentions. `AllocError` where there is no memory for it.
pub(crate) fn in_function(
    alloc: Global,
    table: &TypedTable,
    function: &Function,
) -> Result<Seq<Mention>, AllocError>
    requires { IsFunction table.now function.now }
    ensures { IfOk result (λ s. s ≡ function_mentions (function_in table.now function.now).body) }
{
    let mut found = Found::new(alloc);
    maybe_body(table, &mut found, &function.body);
    found.finish()
}

/// What the value of a global mentions. `AllocError` where there is no memory for it.
pub(crate) fn in_global(
    alloc: Global,
    table: &TypedTable,
    global: &GlobalObject,
) -> Result<Seq<Mention>, AllocError>
    requires { IsGlobal table.now global.now }
    ensures { IfOk result (λ s. s ≡ global_mentions (global_in table.now global.now)) }
{
    let mut found = Found::new(alloc);
    global_parts(table, &mut found, global);
    found.finish()
}
