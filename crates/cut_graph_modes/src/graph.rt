//! The graph of what may run where.

ghost use Rattle.std.specs.Prelude.{◌≡◌, ◌+◌, ◌*◌, ◌≤◌, ◌^◌, ◌++◌, [], length, replicate, IfOk, OnOk};
ghost use Rattle.std.specs.List.{flat_map};
ghost use Rattle.std.specs.Option.{option_to_list};
ghost use Rattle.c_builtins.specs.Table.{first_source_function};
ghost use Rattle.cut_graph_rules.specs.Sources.{mentioned};
ghost use Rattle.cut_graph_modes.specs.Edges.{graph_of, naming_on, rows_of, side_rows, target};

use crate::vertices::{Naming, vertex};
use c_builtins::FIRST_SOURCE_FUNCTION;
use c_syntax::Seq;
use cut_graph_rules::Mention;
use marks::Side;
use std::alloc::{AllocError, Global};

fn put(edges: &mut Vec<u32>, to: Option<u32>) -> Result<(), AllocError>
    ensures { OnOk result (edges.new.items ≡ edges.old.items ++ option_to_list to) }
{
    if let Some(to) = to {
        edges.push(to)?;
    }
    Ok(())
}

// Where mentions lead.
fn row(
    alloc: Global,
    naming: Naming,
    faces: &[bool],
    mentions: &[Mention],
) -> Result<Seq<u32>, AllocError>
    requires { 2 * (naming.functions + naming.globals) ≤ 2 ^ 32 }
    ensures { IfOk result (λ s. s ≡ flat_map (target naming faces.now) mentions.now) }
{
    let mut edges = Vec::new(alloc);
    for mention in mentions {
        put(&mut edges, vertex(naming, faces, *mention))?;
    }
    Ok(Seq::from(edges))
}

// Adds where each of several lists of mentions leads.
fn put_rows(
    alloc: Global,
    graph: &mut Vec<Seq<u32>>,
    naming: Naming,
    faces: &[bool],
    lists: &[Seq<Mention>],
) -> Result<(), AllocError>
    requires { 2 * (naming.functions + naming.globals) ≤ 2 ^ 32 }
    ensures { OnOk result (graph.new.items ≡ graph.old.items ++ rows_of naming faces.now lists.now) }
{
    for mentions in lists {
        graph.push(row(alloc, naming, faces, mentions.as_slice())?)?;
    }
    Ok(())
}

// Builtins mention nothing.
fn put_builtins(alloc: Global, graph: &mut Vec<Seq<u32>>) -> Result<(), AllocError>
    ensures { OnOk result (graph.new.items ≡ graph.old.items ++ replicate first_source_function []) }
{
    for _builtin in 0..FIRST_SOURCE_FUNCTION {
        graph.push(Seq::from(Vec::new(alloc)))?;
    }
    Ok(())
}

// What is named on a side: by functions, where names of globals are followed, or by values of globals.
fn on_side(
    side: Side,
    follows: bool,
    functions: &[Seq<Mention>],
    globals: &[Seq<Mention>],
) -> Naming
    requires { 2 * (first_source_function + length functions.now + length globals.now) ≤ 2 ^ 32 }
    ensures { result ≡ naming_on (mentioned functions.now globals.now) side follows }
{
    Naming {
        functions: u32::from(FIRST_SOURCE_FUNCTION) + functions.len() as u32,
        globals: globals.len() as u32,
        side,
        follows,
    }
}

// Adds the vertices of one side.
fn put_side(
    alloc: Global,
    graph: &mut Vec<Seq<u32>>,
    side: Side,
    faces: &[bool],
    functions: &[Seq<Mention>],
    globals: &[Seq<Mention>],
) -> Result<(), AllocError>
    requires { 2 * (first_source_function + length functions.now + length globals.now) ≤ 2 ^ 32 }
    ensures { OnOk result (graph.new.items ≡ graph.old.items ++
        side_rows (mentioned functions.now globals.now) faces.now side) }
{
    let by_functions = on_side(side, true, functions, globals);
    let by_values = on_side(side, false, functions, globals);
    put_builtins(alloc, graph)?;
    put_rows(alloc, graph, by_functions, faces, functions)?;
    put_rows(alloc, graph, by_values, faces, globals)?;
    Ok(())
}

/// The graph of what these functions and values of globals mention, where some functions are in the interface.
pub(crate) fn whole_graph(
    alloc: Global,
    faces: &[bool],
    functions: &[Seq<Mention>],
    globals: &[Seq<Mention>],
) -> Result<Vec<Seq<u32>>, AllocError>
    requires { 2 * (first_source_function + length functions.now + length globals.now) ≤ 2 ^ 32 }
    ensures { IfOk result (λ g. g.items ≡ graph_of (mentioned functions.now globals.now) faces.now) }
{
    let mut graph = Vec::new(alloc);
    put_side(alloc, &mut graph, Side::Replay, faces, functions, globals)?;
    put_side(alloc, &mut graph, Side::System, faces, functions, globals)?;
    Ok(graph)
}
