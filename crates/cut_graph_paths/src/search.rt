//! A search that follows each edge once.

ghost use Rattle.std.specs.Prelude.{◌≡◌, ◌<◌, ◌↔◌, [], ◌∷◌, ℕ, true, length, IfOk, OnOk};
ghost use Rattle.std.specs.List.{Contains};
ghost use Rattle.cut_graph_paths.specs.Graphs.{IsWithin, Leads, edges_at, flag};
ghost use Rattle.cut_graph_paths.specs.Searches.{IsClear, IsFollowed};

use c_syntax::Seq;
use std::alloc::{AllocError, Global};

// So many marks, none of which is set.
#[tactic(auto, using(crate::proofs::Marks::one_clear))]
fn clear(alloc: Global, count: usize) -> Result<Vec<bool>, AllocError>
    ensures { IfOk result (λ v. IsClear count v.items) }
{
    let mut marks = Vec::with_capacity(alloc, count)?;
    for _row in 0..count {
        marks.push(false)?;
    }
    Ok(marks)
}

// Marks a vertex, and puts it down where it wasn't marked before.
#[tactic(auto, using(crate::proofs::Marks::again, crate::proofs::Marks::flag_is))]
fn mark(marks: &mut Vec<bool>, todo: &mut Vec<usize>, vertex: usize) -> Result<(), AllocError>
    requires { vertex < length marks.old.items }
    ensures { OnOk result (IsFollowed (vertex ∷ []) marks.old.items todo.old.items marks.new.items
        todo.new.items) }
{
    if marks[vertex] {
        return Ok(());
    }
    marks[vertex] = true;
    todo.push(vertex)?;
    Ok(())
}

// Marks all vertices that edges lead to.
#[tactic(auto, using(crate::proofs::Marks::nothing))]
fn follow(marks: &mut Vec<bool>, todo: &mut Vec<usize>, edges: &[u32]) -> Result<(), AllocError>
    requires { (k : ℕ) → Contains edges.now k → k < length marks.old.items }
    ensures { OnOk result (IsFollowed edges.now marks.old.items todo.old.items marks.new.items
        todo.new.items) }
{
    for to in edges {
        mark(marks, todo, *to as usize)?;
    }
    Ok(())
}

// Follows the edges of a vertex.
fn step(
    marks: &mut Vec<bool>,
    todo: &mut Vec<usize>,
    graph: &[Seq<u32>],
    vertex: usize,
) -> Result<(), AllocError>
    requires graph { IsWithin graph.now }
    requires vertex { vertex < length graph.now }
    requires size { length marks.old.items ≡ length graph.now }
    ensures { OnOk result (IsFollowed (edges_at graph.now vertex) marks.old.items todo.old.items
        marks.new.items todo.new.items) }
{
    follow(marks, todo, graph[vertex].as_slice())
}

/// Which vertices are reached from some, where each has the list of those that its edges lead to. It takes time linear in the
/// graph.
///
/// `AllocError` where there is no memory for it.
#[tactic(auto, using(crate::proofs::Paths::ended_at))]
pub fn reached(alloc: Global, graph: &[Seq<u32>], from: &[u32]) -> Result<Vec<bool>, AllocError>
    requires graph { IsWithin graph.now }
    requires from { (k : ℕ) → Contains from.now k → k < length graph.now }
    ensures size { IfOk result (λ v. length v.items ≡ length graph.now) }
    ensures reached { IfOk result (λ v. (k : ℕ) → (flag v.items k ≡ true) ↔ Leads graph.now from.now k) }
{
    let mut marks = clear(alloc, graph.len())?;
    let mut todo = Vec::new(alloc);
    follow(&mut marks, &mut todo, from)?;
    while let Some(vertex) = todo.pop() {
        step(&mut marks, &mut todo, graph, vertex)?;
    }
    Ok(marks)
}
