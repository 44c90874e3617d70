//! The walk over all that stands below a node.

ghost use Rattle.std.specs.Prelude.{◌≡◌, ◌++◌, OnOk};
ghost use Rattle.c_types_rules.specs.Checked.{Checked};
ghost use Rattle.annot_reader_words.specs.Answers.{Passes};
ghost use Rattle.c_syntax_laws.specs.Named.{named_by};
ghost use Rattle.annot_reader_words.specs.Sayings.{AllSay, AreNodes, IsNode, Says, first_word, own};

use crate::collect::{in_decl, in_expr, in_stmt};
use crate::error::AnnotationError;
use c_syntax::{Annot, Tree};
use c_syntax_laws::Node;
use std::alloc::{AllocError, Global};

// No annotation stands here.
fn no_word(annots: &[Annot]) -> Result<(), AnnotationError>
    ensures { Passes (first_word annots.now) result }
{
    match annots {
        [] => Ok(()),
        [first, ..] => Err(AnnotationError::Rule(first.from, 1)),
    }
}

// The node has no annotation of its own.
fn no_own_word(tree: &Tree, node: Node) -> Result<(), AnnotationError>
    requires { IsNode tree.now node }
    ensures { Passes (own tree.now node) result }
{
    match node {
        Node::Decl(id) => no_word(tree.decl(id).annots.as_slice()),
        _ => Ok(()),
    }
}

// What the node names.
fn held(tree: &Tree, node: Node, held: &mut Vec<Node>) -> Result<(), AllocError>
    requires { IsNode tree.now node }
    ensures { OnOk result (held.new.items ≡ held.old.items ++ named_by tree.now node) }
{
    match node {
        Node::Expr(id) => in_expr(&tree.expr(id).kind, held),
        Node::Decl(id) => in_decl(tree.decl(id), held),
        Node::Stmt(id) => in_stmt(&tree.stmt(id).kind, held),
    }
}

// No annotation stands at the node or below it. `Rule` names the first that does.
#[cycle(walk)]
fn bare_node(alloc: Global, tree: &Tree, node: Node) -> Result<(), AnnotationError>
    requires { IsNode tree.now node }
    ensures { (c : Checked (Unit {0})) → Says tree.now node c → Passes c result }
{
    no_own_word(tree, node)?;
    let mut below = Vec::new(alloc);
    held(tree, node, &mut below)?;
    bare_nodes(alloc, tree, below.as_slice())
}

/// No annotation stands at the nodes or below them. `Rule` names the first that does.
#[cycle(walk)]
pub fn bare_nodes(alloc: Global, tree: &Tree, nodes: &[Node]) -> Result<(), AnnotationError>
    requires { AreNodes tree.now nodes.now }
    ensures { (c : Checked (Unit {0})) → AllSay tree.now nodes.now c → Passes c result }
{
    for node in nodes {
        bare_node(alloc, tree, *node)?;
    }
    Ok(())
}
