//! The types whose sizes stand in annotations.

ghost use Rattle.std.specs.Prelude.{◌≡◌};
ghost use Rattle.c_syntax.specs.Stands.{StandAnnots, StandItems, StandsAtom, StandsItem};
ghost use Rattle.c_syntax.specs.Syntax.{Annots, Atom as AtomTree, Item as ItemTree, Items};
ghost use Rattle.c_types_rules.specs.Expressions.{annotation_types as annotations_by_rules, atom_type as atom_by_rules, item_type as item_by_rules, item_types as items_by_rules};
ghost use Rattle.c_types_operators.specs.Answers.{IsNothing};
ghost use Rattle.c_types_expressions.specs.Found.{Finds, Stays};
ghost use Rattle.c_types_expressions.specs.Walks.{AreAnnots, AreItems, IsAtom, IsItem};

use crate::declarators::declared_type;
use crate::sizes::sized;
use c_syntax::{Annot, Atom, Item, Tree};
use c_types_environment::Environment;
use c_types_operators::TypeError;

/// That each `sizeof` in annotations has a complete object type. Errors are as for `declared_type`.
#[cycle(walk)]
pub fn annotation_types(
    env: &mut Environment,
    tree: &Tree,
    annots: &[Annot],
) -> Result<(), TypeError>
    requires { AreAnnots tree.now annots.now }
    ensures agrees { (xs : Annots) → StandAnnots tree.now annots.now xs →
        Finds env.old env.new IsNothing (annotations_by_rules xs env.old.env) result }
    ensures kept { Stays env.old env.new }
{
    for annot in annots {
        item_types(env, tree, annot.items.as_slice())?;
    }
    Ok(())
}

#[cycle(walk)]
fn item_types(env: &mut Environment, tree: &Tree, items: &[Item]) -> Result<(), TypeError>
    requires { AreItems tree.now items.now }
    ensures agrees { (xs : Items) → StandItems tree.now items.now xs →
        Finds env.old env.new IsNothing (items_by_rules xs env.old.env) result }
    ensures kept { Stays env.old env.new }
{
    for item in items {
        item_type(env, tree, item)?;
    }
    Ok(())
}

#[cycle(walk)]
fn item_type(env: &mut Environment, tree: &Tree, item: &Item) -> Result<(), TypeError>
    requires { IsItem tree.now item.now }
    ensures agrees { (x : ItemTree) → StandsItem tree.now item.now x →
        Finds env.old env.new IsNothing (item_by_rules x env.old.env) result }
    ensures kept { Stays env.old env.new }
{
    atom_type(env, tree, item.from, &item.a)?;
    match &item.b {
        Some(second) => atom_type(env, tree, item.from, second),
        None => Ok(()),
    }
}

#[cycle(walk)]
fn atom_type(env: &mut Environment, tree: &Tree, from: u32, atom: &Atom) -> Result<(), TypeError>
    requires { IsAtom tree.now atom.now }
    ensures agrees { (x : AtomTree) → StandsAtom tree.now atom.now x →
        Finds env.old env.new IsNothing (atom_by_rules x env.old.env from) result }
    ensures kept { Stays env.old env.new }
{
    match atom {
        Atom::Sizeof(name) => {
            let ty = declared_type(env, tree, *name)?;
            sized(env, from, ty)
        }
        _ => Ok(()),
    }
}
