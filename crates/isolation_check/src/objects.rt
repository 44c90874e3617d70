//! All strings and globals of a program.

ghost use Rattle.std.specs.Prelude.{◌≡◌, [], length, IfOk};
ghost use Rattle.c_types_program.specs.Programs.{program_in};
ghost use Rattle.isolation_check_laws.specs.Fits.{FitsAreas};
ghost use Rattle.isolation_check.specs.Literals.{strings_in};
ghost use Rattle.isolation_check.specs.Objects.{AreObjects, CanBePlaced, IsLayout};

use crate::globals::global_places;
use crate::rows::{addresses, extents};
use crate::strings::{string_places, string_row};
use c_lower_layout::{Index, Row};
use c_types_model::Extent;
use c_types_program::TypedProgram;
use isolation_check_images::Addresses;
use isolation_check_laws::{globals_lie_in_their_areas, strings_lie_among_constants};
use isolation_check_rules::{Area, Ends};
use memory_map::{Place, REPLAY_GLOBALS, SYSTEM_GLOBALS};
use std::alloc::{AllocError, Global};

/// The strings and globals of a program, each in the order of the source.
#[derive(Drop)]
pub(crate) struct Objects {
    pub(crate) strings: Vec<Place>,
    pub(crate) globals: Vec<Place>,
}

// Where they lie, and how large the globals are.
#[derive(Drop)]
struct Layout {
    strings: Vec<u64>,
    globals: Vec<u64>,
    extents: Vec<Extent>,
}

// That of a program whose globals lie in these areas. `AllocError` only where there is no memory.
fn lay_out(alloc: Global, program: &TypedProgram, areas: &[Area]) -> Result<Layout, AllocError>
    requires fits { FitsAreas (program_in program.now []) (strings_in program.now.texts) }
    requires areas { length areas.now ≡ length program.now.globals }
    ensures { IfOk result (λ l.
        IsLayout program.now areas.now l.strings.items l.globals.items l.extents.items) }
{
    strings_lie_among_constants();
    globals_lie_in_their_areas();
    let types = program.table().types();
    let extents = extents(alloc, types, program.structs().extents(), program.globals())?;
    let Row { offsets, end } = string_row(alloc, program.texts())?;
    let ends = Ends {
        constants: end,
        replay: REPLAY_GLOBALS,
        system: SYSTEM_GLOBALS,
    };
    let globals = addresses(alloc, ends, areas, &extents)?;
    Ok(Layout {
        strings: offsets,
        globals,
        extents,
    })
}

/// Those of a program whose globals lie in these areas. `AllocError` only where there is no memory.
pub(crate) fn place_objects(
    alloc: Global,
    program: &TypedProgram,
    areas: &[Area],
) -> Result<Objects, AllocError>
    requires fits { CanBePlaced program.now }
    requires areas { length areas.now ≡ length program.now.globals }
    ensures { IfOk result (λ o. AreObjects program.now areas.now o.strings.items o.globals.items) }
{
    let layout = lay_out(alloc, program, areas)?;
    let index = Index::new(alloc, program)?;
    let images = Addresses {
        index: &index,
        strings: &layout.strings,
        globals: &layout.globals,
    };
    let globals = global_places(alloc, images, &layout.extents, program.globals())?;
    let strings = string_places(alloc, &layout.strings, program.texts())?;
    Ok(Objects { strings, globals })
}
