//! What is computed of a program once.

ghost use Rattle.std.specs.Prelude.{◌≡◌, ◌<◌, ◌≤◌, ◌^◌, length, slice_get, unwrap_or, IfOk};
ghost use Rattle.std.specs.List.{All};
ghost use Rattle.std.specs.Option.{option_copied};
ghost use Rattle.c_types_model.specs.Types.{StructOf};
ghost use Rattle.c_types_model.specs.Layouts.{end_from};
ghost use Rattle.c_types_table.specs.Tables.{IsBelow, type_at};
ghost use Rattle.c_semantics.specs.Context.{kind_of, local_offsets, member_offset, order_of, size_of};
ghost use Rattle.c_semantics.specs.Values.{is_read};
ghost use Rattle.c_types_rules.specs.Sources.{extents_in};
ghost use Rattle.c_types_rules.specs.TypeTests.{same_type};
ghost use Rattle.c_types_program.specs.Declarations.{IsSound, types_in};
ghost use Rattle.c_lower_layout.specs.Sources.{source_in};
ghost use Rattle.c_lower_layout.specs.Indexed.{HasNumbers};

use crate::layouts::{Row, row_of};
use crate::orders::{orders, small};
use crate::structs::member_offsets;
use c_types_model::{Extent, Offsets};
use c_types_program::{Function, TextLiteral, TypedProgram};
use c_types_table::{Ty, TypeId, Types};
use r2_num::IntKind;
use std::alloc::{AllocError, Global};
use std::collections::HashMap;
use std::marker::Model;

/// A program, with where the members of its structs lie, and the order of its strings.
#[derive(Drop)]
pub struct Index<'a> {
    program: &'a TypedProgram,
    members: Vec<Offsets>,
    orders: HashMap<u32, u32>,
}

impl<'a> Model for Index<'a> {
    ghost use Rattle.std.specs.Coded.{codes};
    ghost use Rattle.c_types_program.specs.contracts.global.Initial as initial;
    ghost use Rattle.c_types_program.specs.contracts.statement.Statement as statement;
    ghost use Rattle.c_types_program.specs.Declarations.{Declared};
    ghost use Rattle.c_lower_layout.specs.Indexed.{IsIndex};

    ghost Value = { Declared };

    ghost view = { λ i. i.program.now };

    ghost coded = { Prim.hlevel (codes, initial.the_row.coded, statement.the_row.coded) };

    ghost invariant = { λ i. IsIndex i.program.now i.members.items i.orders };
}

// The number at a place of a list; 0 where there is none.
fn number_at(numbers: &[u64], place: u32) -> u64
    ensures { result ≡ unwrap_or (slice_get numbers.now place) 0 }
{
    numbers.get(place as usize).copied().unwrap_or(0)
}

// The offsets of the members of a struct, by its number.
fn offsets_at(members: &[Offsets], id: u32) -> Option<&Offsets>
    ensures { option_copied result ≡ slice_get members.now id }
{
    members.get(id as usize)
}

impl<'a> Index<'a> {
    /// That of a program. `AllocError` only where there is no memory.
    pub fn new(alloc: Global, program: &'a TypedProgram) -> Result<Index<'a>, AllocError>
        requires { HasNumbers program.now }
        ensures { IfOk result (λ i. i ≡ program.now) }
    {
        let types = program.table().types();
        let members = member_offsets(alloc, types, program.structs())?;
        let orders = orders(alloc, program.texts())?;
        Ok(Index {
            program,
            members,
            orders,
        })
    }

    /// The program.
    pub fn program(&self) -> &TypedProgram
        ensures { result.now ≡ self.now }
    {
        self.program
    }

    /// The types of the program.
    pub fn types(&self) -> &Types
        ensures { result.now ≡ self.now.table.types }
    {
        self.program.table().types()
    }

    // The functions of the program, whose numbers have 16 bits.
    pub(crate) fn functions(&self) -> &[Function]
        ensures functions { result.now ≡ self.now.functions }
        ensures sound { IsSound self.now }
        ensures few { length result.now ≤ 2 ^ 16 }
    {
        self.program.functions()
    }

    // The strings of the program, whose orders have 32 bits.
    fn texts(&self) -> &[TextLiteral]
        ensures texts { result.now ≡ self.now.texts }
        ensures few { length result.now < 2 ^ 32 }
    {
        self.program.texts()
    }

    // The sizes and alignments of the structs of the program.
    fn extents(&self) -> &[Extent]
        ensures { result.now ≡ self.now.structs.extents }
    {
        self.program.structs().extents()
    }

    /// The kind of the values of a scalar type.
    pub fn kind(&self, ty: TypeId) -> IntKind
        requires { ty.0 < length self.now.table.types }
        ensures { result ≡ kind_of (type_at self.now.table.types ty) }
    {
        match self.types().get(ty) {
            Ty::Int(kind) => *kind,
            _ => IntKind::U64,
        }
    }

    /// Whether values of the type are loaded.
    pub fn is_read(&self, ty: TypeId) -> bool
        requires { ty.0 < length self.now.table.types }
        ensures { result ≡ is_read (type_at self.now.table.types ty) }
    {
        matches!(self.types().get(ty), Ty::Int(_) | Ty::Pointer(_))
    }

    /// Whether two types are equal.
    pub fn are_same(&self, a: TypeId, b: TypeId) -> bool
        requires left { a.0 < length self.now.table.types }
        requires right { b.0 < length self.now.table.types }
        ensures { result ≡ same_type (type_at self.now.table.types a) (type_at self.now.table.types b) }
    {
        self.types().is_same(a, b)
    }

    /// The size of a type in bytes; 0 where it is no complete object type. A size past 2^64 - 1 counts as 2^64 - 1.
    pub fn size_of(&self, ty: TypeId) -> u64
        requires { ty.0 < length self.now.table.types }
        ensures { result ≡ size_of (source_in self.now) (type_at self.now.table.types ty) }
    {
        match self.types().extent(self.extents(), ty) {
            Some(extent) => extent.size,
            None => 0,
        }
    }

    /// How far the member of this number lies after the beginning of a struct; 0 where there is none.
    pub fn member_offset(&self, ty: TypeId, number: u32) -> u64
        requires { ty.0 < length self.now.table.types }
        ensures { result ≡ member_offset (source_in self.now) (type_at self.now.table.types ty) number }
    {
        match self.types().get(ty) {
            Ty::Struct(id) => self.member_of(id.0, number),
            _ => 0,
        }
    }

    // The same by the number of the struct.
    fn member_of(&self, id: u32, number: u32) -> u64
        ensures { result ≡ member_offset (source_in self.now) (StructOf id) number }
    {
        match offsets_at(&self.members, id) {
            Some(offsets) => number_at(offsets.as_slice(), number),
            None => 0,
        }
    }

    /// The order of the string at an offset; how many strings there are where none is there.
    pub fn order_of(&self, from: u32) -> u32
        ensures { result ≡ order_of from (source_in self.now).texts }
    {
        match self.orders.get(&from) {
            Some(order) => *order,
            None => small(self.texts().len()),
        }
    }

    /// Objects of these types in a row, one after another. `AllocError` only where there is no memory.
    pub fn row(&self, alloc: Global, ids: &[TypeId]) -> Result<Row, AllocError>
        requires inside { All (IsBelow (length self.now.table.types)) ids.now }
        requires small { end_from 0 (extents_in (source_in self.now).program
            (types_in self.now.table.types ids.now)) < 2 ^ 64 }
        ensures offsets { IfOk result (λ r. r.offsets.items ≡
            local_offsets (source_in self.now) (types_in self.now.table.types ids.now)) }
        ensures end { IfOk result (λ r. r.end ≡
            end_from 0 (extents_in (source_in self.now).program (types_in self.now.table.types ids.now))) }
    {
        row_of(alloc, self.types(), self.extents(), ids)
    }
}
