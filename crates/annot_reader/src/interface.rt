//! The interface of a cut, by the annotations of a source.

ghost use Rattle.std.specs.Prelude.{◌≡◌, List, ℕ, OnOk};
ghost use Rattle.std.specs.List.{list_any};
ghost use Rattle.c_syntax.specs.Syntax.{Decls};
ghost use Rattle.c_types_rules.specs.Checked.{Fine};
ghost use Rattle.c_types_rules.specs.Sources.{Program};
ghost use Rattle.annot_reader_rules.specs.Cuts.{annotations};
ghost use Rattle.annot_reader_rules.specs.Notes.{Annotated};
ghost use Rattle.annot_reader_functions.specs.declared.notes.FunctionNotes.{FunctionNotes as Noted};
ghost use Rattle.annot_reader_functions.specs.Rules.{Stays};
ghost use Rattle.annot_reader.specs.Headings.{IsSource, IsTyped};
ghost use Rattle.annot_reader.specs.Interfaces.{IsInterface};
ghost use Rattle.annot_reader.specs.Reading.{AreRead};
ghost use Rattle.annot_reader_functions.specs.Seen.{declared_by};

use crate::declarations::read;
use crate::error::InterfaceError;
use crate::iface::Iface;
use crate::reading::Reading;
use crate::source::Source;
use annot_reader_functions::FunctionNotes;
use c_types_environment::Environment;
use std::alloc::Global;

// Whether a function is in the interface of the cut.
fn any_in_cut(functions: &[FunctionNotes]) -> bool
    ensures { result ≡ list_any (λ (v : Noted). v.in_cut) functions.now }
{
    functions.iter().any(|notes| notes.in_cut)
}

// The interface of the cut, where this was read.
fn interface_by(alloc: Global, reading: Reading) -> Result<Iface, InterfaceError>
    ensures { (cut : List ℕ) (a : Annotated) → AreRead cut a reading → IsInterface cut (Fine a) result }
{
    if !any_in_cut(&reading.functions) {
        return Err(InterfaceError::NoSuchCut);
    }
    Ok(Iface::new(alloc, reading.functions, reading.guards)?)
}

/// What the annotations of a source say, and which functions are in the interface of a cut.
///
/// `Rule` names the first rule of annotations that the source breaks, with the offset of the node that breaks it; `NoSuchCut` where it
/// breaks none and no declaration names the cut. After an error nothing is known of what is declared.
pub fn interface(
    alloc: Global,
    env: &mut Environment,
    source: &Source,
) -> Result<Iface, InterfaceError>
    requires { IsSource source.now.tree.now (declared_by env.old) source.now.functions.now }
    ensures interface { (ds : Decls) (p : Program) →
        IsTyped source.now.tree.now (declared_by env.old) source.now.functions.now ds p →
        IsInterface source.now.cut.now (annotations ds p) result }
    ensures kept { OnOk result (Stays (declared_by env.old) (declared_by env.new)) }
{
    let reading = read(alloc, env, source, source.tree.top())?;
    interface_by(alloc, reading)
}
