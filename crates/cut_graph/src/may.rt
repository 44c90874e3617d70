//! Modes for an interface.

ghost use Rattle.std.specs.Prelude.{◌≡◌, ◌+◌, ◌<◌, ◌≤◌, ◌^◌, ◌↔◌, ℕ, true, length, is_some, IfOk};
ghost use Rattle.marks.specs.declared.side.Side.{Side};
ghost use Rattle.c_builtins.specs.Table.{first_source_function};
ghost use Rattle.annot_reader.specs.Interfaces.{annots_at};
ghost use Rattle.cut_graph_rules.specs.MayRun.{MayRun};
ghost use Rattle.cut_graph_modes.specs.Runs.{may};

use crate::faces::faces_of;
use annot_reader::Iface;
use c_builtins::FIRST_SOURCE_FUNCTION;
use cut_graph_mentions::Mentions;
use cut_graph_modes::{Modes, modes_of};
use std::alloc::{AllocError, Global};

/// In which modes the functions of a source may run, where `main` has this number, in time linear in what the source
/// mentions.
///
/// `AllocError` where there is no memory for it.
pub fn modes(
    alloc: Global,
    mentions: &Mentions,
    iface: &Iface,
    main: u16,
) -> Result<Modes, AllocError>
    requires functions { first_source_function + length mentions.now.functions ≤ 2 ^ 16 }
    requires globals { length mentions.now.globals ≤ 2 ^ 30 }
    requires main { main < first_source_function + length mentions.now.functions }
    ensures { IfOk result (λ m. (side : Side) (f : ℕ) → (may m side f ≡ true) ↔
        MayRun mentions.now (λ h. is_some (annots_at iface.now h)) main side f) }
{
    let functions = mentions.functions();
    let count = u32::from(FIRST_SOURCE_FUNCTION) + functions.len() as u32;
    let faces = faces_of(alloc, iface, count)?;
    let modes = modes_of(alloc, functions, mentions.globals(), &faces, main)?;
    Ok(modes)
}
