//! Names of cuts, each put once.

ghost use Rattle.std.specs.Prelude.{◌≡◌, OnOk};
ghost use Rattle.cut_advisor.specs.CutNames.{with_name, with_names};
ghost use Rattle.cut_advisor.specs.CutNodes.{names_by_annot, names_by_annots, names_by_item, names_by_items, texts_of};

use c_syntax::{Annot, Atom, Item};
use indexmap::IndexSet;
use std::alloc::{AllocError, Global};

// Puts a name after the others, unless it is among them.
fn put_name(alloc: Global, names: &mut IndexSet<Vec<u8>>, name: &[u8]) -> Result<(), AllocError>
    ensures { OnOk result (texts_of names.new.keys ≡ with_name (texts_of names.old.keys) name.now) }
{
    if names.contains(name) {
        return Ok(());
    }
    let copy = Vec::from_slice(alloc, name)?;
    names.insert(copy)?;
    Ok(())
}

// The same of an item, where it is a name.
fn put_item(alloc: Global, names: &mut IndexSet<Vec<u8>>, item: &Item) -> Result<(), AllocError>
    ensures { OnOk result (texts_of names.new.keys ≡
        with_names (texts_of names.old.keys) (names_by_item item.now)) }
{
    match (&item.a, &item.b) {
        (Atom::Name(name), None) => put_name(alloc, names, name.as_slice()),
        _ => Ok(()),
    }
}

fn put_items(alloc: Global, names: &mut IndexSet<Vec<u8>>, items: &[Item]) -> Result<(), AllocError>
    ensures { OnOk result (texts_of names.new.keys ≡
        with_names (texts_of names.old.keys) (names_by_items items.now)) }
{
    for item in items {
        put_item(alloc, names, item)?;
    }
    Ok(())
}

fn put_annot(alloc: Global, names: &mut IndexSet<Vec<u8>>, annot: &Annot) -> Result<(), AllocError>
    ensures { OnOk result (texts_of names.new.keys ≡
        with_names (texts_of names.old.keys) (names_by_annot annot.now)) }
{
    if annot.name.as_slice() != b"cut".as_slice() {
        return Ok(());
    }
    put_items(alloc, names, annot.items.as_slice())
}

/// Puts the names of the cuts that annotations name after the others, each once. `AllocError` where there is no memory for them.
pub(crate) fn put_annots(
    alloc: Global,
    names: &mut IndexSet<Vec<u8>>,
    annots: &[Annot],
) -> Result<(), AllocError>
    ensures { OnOk result (texts_of names.new.keys ≡
        with_names (texts_of names.old.keys) (names_by_annots annots.now)) }
{
    for annot in annots {
        put_annot(alloc, names, annot)?;
    }
    Ok(())
}
