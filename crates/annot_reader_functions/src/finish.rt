//! What is said of a function, as plain data.

ghost use Rattle.std.specs.Prelude.{◌≡◌, List, ℕ, pos, map, IfOk};
ghost use Rattle.annot_reader_rules.specs.Notes.{Notes, Parameter};
ghost use Rattle.annot_reader_functions.specs.Parameters.{AreRead};
ghost use Rattle.annot_reader_functions.specs.Sayings.{IsNoted, IsSaid};

use crate::notes::FunctionNotes;
use crate::said::Said;
use annot_reader_words::{Annots, Param};
use c_syntax::{Seq, SharedSeq};
use std::alloc::{AllocError, Global};

// Mutexes as values of int.
fn as_ints(alloc: Global, mutexes: &[u32]) -> Result<Vec<i64>, AllocError>
    ensures { IfOk result (λ v. v.items ≡ map pos mutexes.now) }
{
    mutexes.iter().map(|mutex| i64::from(*mutex)).collect(alloc)
}

/// What is said of a function, where this is said by its own annotations and this of its parameters. `AllocError` where there is no
/// memory for it.
pub(crate) fn notes_of(
    alloc: Global,
    said: Said,
    params: Vec<Param>,
) -> Result<FunctionNotes, AllocError>
    ensures { (cut : List ℕ) (n : Notes) (ps : List Parameter) → IsSaid cut said n →
        AreRead ps params.items → IfOk result (IsNoted cut (record n { params = ps })) }
{
    let holds = as_ints(alloc, said.holds.as_slice())?;
    let holds = SharedSeq::from_vec(holds)?;
    Ok(FunctionNotes {
        in_cut: said.in_cut,
        annots: Annots {
            params: Seq::from(params),
            sync: Seq::from(said.sync),
            commit: said.commit,
            cache: said.cache,
        },
        holds,
    })
}
