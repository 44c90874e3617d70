// Sources with their objects in place.

ghost use Rattle.std.specs.Prelude.{◌<◌, length};

use annot_reader::Iface;
use c_builtins::FIRST_SOURCE_FUNCTION;
use c_code::{Bytes8, Place, Placed};
use c_code_fused::FusedCode;
use c_types_model::Extent;
use c_types_program::TypedProgram;
use c_types_table::TypeId;
use front_end::{CheckedSource, SourceError, check_source};
use memory_map::{Flags, POOL_SIZE, Places, REPLAY_GLOBALS, REPLAY_POOL};
use std::alloc::{AllocError, Global};
use test_cases::Output;

/// A source has no more bytes.
const MOST_BYTES: usize = 1_048_576;

/// Where strings lie, each at a multiple of this.
const STRINGS: u64 = 0x0010_0000;

const STRING_ALIGNMENT: u64 = 16;

/// A range of memory that has a name.
#[derive(Drop)]
pub struct Area {
    pub name: Output,
    pub addr: u64,
    pub size: u64,
}

/// The typed program of a source, its fused code, the places of its objects, and the areas that have a name.
#[derive(Drop)]
pub struct Image {
    pub program: TypedProgram,
    pub code: FusedCode,
    pub placed: Placed,
    pub areas: Vec<Area>,
}

/// The size and alignment of a type; of an incomplete one those of a byte.
fn extent(program: &TypedProgram, ty: TypeId) -> Extent
    requires { ty.0 < length program.now.table.types }
{
    let types = program.table().types();
    match types.extent(program.structs().extents(), ty) {
        Some(extent) => extent,
        None => Extent { size: 1, align: 1 },
    }
}

impl Area {
    fn new(alloc: Global, name: &[u8], addr: u64, size: u64) -> Area {
        let mut area = Area {
            name: Output::new(alloc),
            addr,
            size,
        };
        area.name.put_bytes(name);
        area
    }
}

/// Lays the globals one after another, each at the next multiple of its alignment. They are zero, whatever
/// the source says.
fn globals(
    alloc: Global,
    program: &TypedProgram,
    areas: &mut Vec<Area>,
) -> Result<Places, AllocError> {
    let mut objects = Vec::new(alloc);
    let mut next = REPLAY_GLOBALS;
    for global in program.globals() {
        let extent = extent(program, global.ty);
        let addr = next.checked_next_multiple_of(extent.align).unwrap_or(next);
        let init = Bytes8::new(alloc);
        objects.push(Place { addr, init })?;
        areas.push(Area::new(alloc, global.name.as_slice(), addr, extent.size))?;
        next = addr.wrapping_add(extent.size);
    }
    Ok(Places::from(objects))
}

/// Lays the strings one after another, each with a zero at its end.
fn strings(
    alloc: Global,
    program: &TypedProgram,
    areas: &mut Vec<Area>,
) -> Result<Places, AllocError> {
    let mut objects = Vec::new(alloc);
    let mut addr = STRINGS;
    let mut number: u64 = 0;
    for literal in program.texts() {
        let bytes = literal.bytes.as_slice();
        let size = (bytes.len() as u64).wrapping_add(1);
        let init = Bytes8::from(bytes.to_vec(alloc)?);
        objects.push(Place { addr, init })?;
        let mut area = Area::new(alloc, b"string", addr, size);
        area.name.put_number(number);
        areas.push(area)?;
        number = number.wrapping_add(1);
        let end = addr.wrapping_add(size);
        addr = end
            .checked_next_multiple_of(STRING_ALIGNMENT)
            .unwrap_or(end);
    }
    Ok(Places::from(objects))
}

/// Whether each function is in the interface; of numbers after the last it isn't.
fn faces(alloc: Global, interface: &Iface, functions: usize) -> Result<Flags, AllocError> {
    let last = functions.saturating_add(usize::from(FIRST_SOURCE_FUNCTION));
    let mut faces = Vec::new(alloc);
    for number in 0..u16::try_from(last).unwrap_or(u16::MAX) {
        faces.push(interface.annots(number).is_some())?;
    }
    Ok(Flags::from(faces))
}

/// The places of all objects, whose areas are added. The pool of replay code has a name, too: its blocks have
/// none of their own.
fn placed(
    alloc: Global,
    source: &CheckedSource,
    areas: &mut Vec<Area>,
) -> Result<Placed, AllocError> {
    areas.push(Area::new(alloc, b"pool", REPLAY_POOL, POOL_SIZE))?;
    let faces = faces(alloc, &source.interface, source.program.functions().len())?;
    let globals = globals(alloc, &source.program, areas)?;
    let strings = strings(alloc, &source.program, areas)?;
    Ok(Placed {
        globals,
        strings,
        replay: Flags::new(alloc),
        system: Flags::new(alloc),
        faces,
    })
}

/// The source with its objects in place, as the front end takes it for the cut `c`.
pub fn image_of(alloc: Global, source: &str) -> Result<Image, SourceError> {
    if source.len() > MOST_BYTES {
        return Err(SourceError::Memory);
    }
    let source = check_source(alloc, source.as_bytes(), b"c")?;
    let mut areas = Vec::new(alloc);
    let placed = placed(alloc, &source, &mut areas)?;
    let code = FusedCode::new(alloc, source.code)?;
    Ok(Image {
        program: source.program,
        code,
        placed,
        areas,
    })
}
