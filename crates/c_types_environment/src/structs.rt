//! Structs and the sizes of types (C11 6.5.3.4, 6.7.2.1).

ghost use Rattle.std.specs.Prelude.{◌≡◌, ◌<◌, length, map, slice_get, slice_index_or, IfOk, IfSome, OnOk, OnErr};
ghost use Rattle.std.specs.Option.{option_map};
ghost use Rattle.std.specs.List.{All};
ghost use Rattle.c_types_model.specs.Layouts.{capped_extent, scalar};
ghost use Rattle.c_types_table.specs.Tables.{IsBelow, type_at, types_of};
ghost use Rattle.c_types_rules.specs.Environment.{extents};
ghost use Rattle.c_types_rules.specs.Expressions.{is_small as is_small_type};
ghost use Rattle.c_types_rules.specs.Initials.{types_in};
ghost use Rattle.c_types_rules.specs.Sources.{extents_of};
ghost use Rattle.c_types_operators.specs.Answers.{IsSizeOf};
ghost use Rattle.c_types_environment.specs.Reading.{IsMemberBelow, members_by, struct_with};
ghost use Rattle.c_types_environment.specs.States.{is_small_struct, with_struct};

use crate::environment::Environment;
use c_types_model::{Extent, lay_out};
use c_types_structs::Members;
use c_types_table::{StructId, TypeId};
use source_limits::GREATEST_OBJECT;
use std::alloc::AllocError;

impl Environment {
    /// The sizes in bytes and the alignments of the structs that are defined, by number. A size past 2^64 - 1 counts as
    /// 2^64 - 1.
    pub fn extents(&self) -> &[Extent]
        ensures { result.now ≡ map capped_extent (extents self.now.env) }
    {
        self.structs.extents()
    }

    /// The size in bytes of a complete object type; `None` of any other. A size past 2^64 - 1 counts as 2^64 - 1.
    pub fn size_of(&self, ty: TypeId) -> Option<u64>
        requires inside { ty.0 < length self.now.table.types }
        ensures { IsSizeOf (extents self.now.env) (type_at self.now.table.types ty) result }
    {
        c_types_operators::size_of(&self.table, self.structs.extents(), ty)
    }

    /// Whether an object of the type isn't too large, which it isn't where the type isn't complete.
    pub fn is_small(&self, ty: TypeId) -> bool
        requires inside { ty.0 < length self.now.table.types }
        ensures { result ≡ is_small_type (extents self.now.env) (type_at self.now.table.types ty) }
    {
        match self.size_of(ty) {
            Some(size) => size <= GREATEST_OBJECT,
            None => true,
        }
    }

    /// Defines the next struct, whose members have complete object types (C11 6.7.2.1). Answers whether an object of it isn't too
    /// large.
    ///
    /// `AllocError` where there is no memory for it. Then none is defined.
    pub fn define_struct(&mut self, members: Members) -> Result<bool, AllocError>
        requires types { All (IsMemberBelow (length self.old.table.types)) members }
        ensures defined { OnOk result (self.new ≡
            record self.old {
              env = with_struct self.old.env
                  (members_by (types_of self.old.table.types) members);
            }) }
        ensures small { IfOk result (λ small. small ≡
            is_small_struct self.old.env (members_by (types_of self.old.table.types) members)) }
        ensures err { OnErr result (self.new ≡ self.old) }
    {
        let extent = self.layout(&members)?;
        self.structs.define(members, extent)?;
        Ok(extent.size <= GREATEST_OBJECT)
    }

    // The size and alignment of the member at a place.
    fn member_extent(&self, members: &Members, place: usize) -> Extent
        requires types { All (IsMemberBelow (length self.now.table.types)) members.now }
        ensures { result ≡ capped_extent (slice_index_or
            (extents_of (extents self.now.env) (members_by (types_of self.now.table.types) members.now))
            place (scalar 1)) }
    {
        let Some(ty) = members.type_at(place) else {
            return Extent { size: 1, align: 1 };
        };
        let extent = self.table.types().extent(self.structs.extents(), ty);
        extent.unwrap_or(Extent { size: 1, align: 1 })
    }

    // The size and alignment of a struct with these members.
    fn layout(&self, members: &Members) -> Result<Extent, AllocError>
        requires types { All (IsMemberBelow (length self.now.table.types)) members.now }
        ensures { IfOk result (λ e. e ≡ capped_extent
            (struct_with (extents self.now.env)
            (members_by (types_of self.now.table.types) members.now)).extent) }
    {
        let mut extents = Vec::with_capacity(self.alloc, members.len())?;
        for place in 0..members.len() {
            extents.push(self.member_extent(members, place))?;
        }
        let layout = lay_out(self.alloc, &extents)?;
        Ok(Extent {
            size: layout.size,
            align: layout.align,
        })
    }

    /// The type of the member at a place of a struct, counted from 0; `None` past the last, or where the struct isn't defined.
    pub fn member_type(&self, number: StructId, place: usize) -> Option<TypeId>
        ensures ty { option_map (type_at self.now.table.types) result ≡
            slice_get (types_in self.now.env.structs number.0) place }
        ensures inside { IfSome result (IsBelow (length self.now.table.types)) }
    {
        self.structs.member_type(number, place)
    }
}
