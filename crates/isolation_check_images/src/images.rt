//! The bytes of values.

ghost use Rattle.std.specs.Prelude.{◌≡◌, ◌<◌, ◌+◌, ◌-◌, ◌^◌, ◌++◌, length, min, replicate, option_map, IfOk};
ghost use Rattle.c_types_model.specs.Types.{StructOf};
ghost use Rattle.c_types_table.specs.Tables.{type_at};
ghost use Rattle.c_types_rules.specs.Initials.{types_in};
ghost use Rattle.c_types_program.specs.Declarations.{initial_in, initials_in};
ghost use Rattle.c_semantics.specs.Context.{Source, size_of};
ghost use Rattle.isolation_check_rules.specs.Images.{elements, global_image, image, members};
ghost use Rattle.isolation_check_images.specs.Given.{Adds, HasPlaces, IsSource};
ghost use Rattle.isolation_check_images.specs.Listed.{listed};

use crate::addresses::Addresses;
use crate::buffer::ByteBuffer;
use c_types_program::Initial;
use c_types_table::{StructId, Ty, TypeId};
use std::alloc::{AllocError, Global};

impl Addresses<'_> {
    // Adds the bytes of a value of a type.
    #[cycle(images)]
    fn image(self, out: &mut ByteBuffer, value: &Initial, ty: TypeId)
        requires inside { ty.0 < length self.index.now.table.types }
        requires places { HasPlaces self.index.now }
        ensures { Adds self.entry.index.now self.entry.strings.now self.entry.globals.now
            (λ s. image s (initial_in value.now) (type_at self.entry.index.now.table.types ty))
            out.old out.new }
    {
        let size = self.index.size_of(ty);
        match value {
            Initial::Scalar(known) => out.put_number(size, self.value(*known)),
            Initial::Bytes(bytes) => {
                let bytes = bytes.as_slice();
                out.put(bytes);
                out.put_zeros(size.saturating_sub(bytes.len() as u64));
            }
            Initial::Listed(values) => {
                let start = out.len();
                self.listed(out, values, ty);
                out.put_zeros(size.saturating_sub(out.len().saturating_sub(start)));
            }
        }
    }

    // Adds the first elements or members of an object of a type.
    #[cycle(images)]
    fn listed(self, out: &mut ByteBuffer, values: &[Initial], ty: TypeId)
        requires inside { ty.0 < length self.index.now.table.types }
        requires places { HasPlaces self.index.now }
        ensures { Adds self.entry.index.now self.entry.strings.now self.entry.globals.now
            (λ s. listed s (initials_in values.now) (type_at self.entry.index.now.table.types ty))
            out.old out.new }
    {
        match self.index.types().get(ty) {
            Ty::Array(element, _) => self.elements(out, values, *element),
            Ty::Struct(number) => self.members(out, values, *number, ty),
            Ty::Void | Ty::Int(_) | Ty::Pointer(_) | Ty::UndefinedStruct(_) | Ty::Function { .. } =>
                {}
        }
    }

    // Adds elements, one after another.
    #[cycle(images)]
    fn elements(self, out: &mut ByteBuffer, values: &[Initial], element: TypeId)
        requires inside { element.0 < length self.index.now.table.types }
        requires places { HasPlaces self.index.now }
        ensures { Adds self.entry.index.now self.entry.strings.now self.entry.globals.now
            (λ s. elements s (initials_in values.now) (type_at self.entry.index.now.table.types element))
            out.old out.new }
    {
        for i in 0..values.len() {
            self.image(out, &values[i], element);
        }
    }

    // Adds the first members of a struct, each at its offset.
    #[cycle(images)]
    fn members(self, out: &mut ByteBuffer, values: &[Initial], number: StructId, ty: TypeId)
        requires inside { ty.0 < length self.index.now.table.types }
        requires places { HasPlaces self.index.now }
        requires is_struct { type_at self.index.now.table.types ty ≡ StructOf number.0 }
        ensures { Adds self.entry.index.now self.entry.strings.now self.entry.globals.now
            (λ s. members s (initials_in values.now) number.0 (types_in s.program.structs number.0) 0 0)
            out.old out.new }
    {
        let mut after: u64 = 0;
        for i in 0..values.len() {
            let Some(member) = self.member_type(number, i) else {
                return;
            };
            let offset = self.index.member_offset(ty, i as u32);
            after = self.member(out, &values[i], member, offset, after);
        }
    }

    // Adds a member at an offset, where so many bytes of its struct stand before, and gives the offset after it. One past 2^64 - 1
    // counts as 2^64 - 1.
    #[cycle(images)]
    fn member(
        self,
        out: &mut ByteBuffer,
        value: &Initial,
        ty: TypeId,
        offset: u64,
        after: u64,
    ) -> u64
        requires inside { ty.0 < length self.index.now.table.types }
        requires places { HasPlaces self.index.now }
        ensures bytes { Adds self.entry.index.now self.entry.strings.now self.entry.globals.now
            (λ s. replicate (offset - after) 0 ++ image s (initial_in value.now)
            (type_at self.entry.index.now.table.types ty)) out.old out.new }
        ensures end { (s : Source) →
            IsSource self.entry.index.now self.entry.strings.now self.entry.globals.now s →
            result ≡ min (offset + size_of s (type_at self.entry.index.now.table.types ty)) (2 ^ 64 - 1) }
    {
        out.put_zeros(offset.saturating_sub(after));
        self.image(out, value, ty);
        offset.saturating_add(self.index.size_of(ty))
    }

    /// The bytes of a global of this size before a run, where it has this value.
    ///
    /// `AllocError` only where there is no memory.
    pub fn global_image(
        self,
        alloc: Global,
        size: u64,
        value: &Option<Initial>,
        ty: TypeId,
    ) -> Result<Vec<u8>, AllocError>
        requires inside { ty.0 < length self.index.now.table.types }
        requires places { HasPlaces self.index.now }
        ensures { (s : Source) →
            IsSource self.entry.index.now self.entry.strings.now self.entry.globals.now s →
            IfOk result (λ v. v.items ≡ global_image s size (option_map initial_in value.now)
            (type_at self.entry.index.now.table.types ty)) }
    {
        let mut out = ByteBuffer::new(alloc);
        if let Some(value) = value {
            self.image(&mut out, value, ty);
        }
        out.finish(size)
    }
}
