//! What is said of builtins.

ghost use Rattle.std.specs.Prelude.{◌≡◌, [], IfOk};
ghost use Rattle.annot_reader.specs.Builtins.{annots_of, builtin_note, builtin_notes as builtin_notes_of, builtin_params, called_back, plain, read_by_second};

use annot_reader_functions::FunctionNotes;
use annot_reader_words::{Annots, Param};
use c_builtins::{BUILTINS, Builtin};
use c_syntax::{Seq, SharedSeq};
use std::alloc::{AllocError, Global};
use stub_core::{Size, Term};

// A parameter of which nothing is said.
fn plain() -> Param
    ensures { result ≡ plain }
{
    Param {
        reads: None,
        writes: None,
        prepares: None,
        callback: false,
    }
}

// A function that may be called back.
fn called_back() -> Param
    ensures { result ≡ called_back }
{
    Param {
        callback: true,
        ..plain()
    }
}

// As many bytes are read of what it points to as the second parameter says.
fn read_by_second() -> Param
    ensures { result ≡ read_by_second }
{
    Param {
        reads: Some(Size {
            a: Term::Param(1),
            b: None,
        }),
        ..plain()
    }
}

fn params(alloc: Global, builtin: Builtin) -> Result<Vec<Param>, AllocError>
    ensures { IfOk result (λ v. v.items ≡ builtin_params builtin) }
{
    match builtin {
        Builtin::Spawn => Ok(vec![in alloc; called_back(), plain()]?),
        Builtin::Print => Ok(vec![in alloc; read_by_second(), plain()]?),
        _ => Ok(vec![in alloc; plain()]?),
    }
}

/// Parameters, and that nothing is said of the function itself.
pub(crate) fn annots(alloc: Global, params: Vec<Param>) -> Annots
    ensures { result ≡ annots_of params.items }
{
    Annots {
        params: Seq::from(params),
        sync: Seq::from(Vec::new(alloc)),
        commit: None,
        cache: false,
    }
}

fn notes(alloc: Global, builtin: Builtin) -> Result<FunctionNotes, AllocError>
    ensures { IfOk result (λ v. v ≡ builtin_note builtin) }
{
    let params = params(alloc, builtin)?;
    Ok(FunctionNotes {
        in_cut: builtin.is_in_interface(),
        annots: annots(alloc, params),
        holds: SharedSeq::empty(),
    })
}

/// What is said of the builtins, by number.
pub(crate) fn builtin_notes(alloc: Global) -> Result<Vec<FunctionNotes>, AllocError>
    ensures { IfOk result (λ v. v.items ≡ builtin_notes_of) }
{
    let mut all = Vec::new(alloc);
    for builtin in BUILTINS {
        all.push(notes(alloc, builtin)?)?;
    }
    Ok(all)
}
