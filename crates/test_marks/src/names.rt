// What the functions and objects of a source are called.

use crate::image::{Area, Image};
use c_builtins::{Builtin, FIRST_SOURCE_FUNCTION};
use test_cases::Output;

impl Image {
    /// The number of the source's function of this name; one that no function has, where there is none.
    pub fn number_of(&self, name: &str) -> u16 {
        let mut number = FIRST_SOURCE_FUNCTION;
        for function in self.program.functions() {
            if function.name.as_slice() == name.as_bytes() {
                return number;
            }
            number = number.saturating_add(1);
        }
        u16::MAX
    }

    /// Writes the name of a function or builtin; `?` of another number.
    pub fn put_name(&self, func: u16, out: &mut Output) {
        if let Some(builtin) = Builtin::of_number(func) {
            out.put_bytes(builtin.name());
            return;
        }
        let place = func.saturating_sub(FIRST_SOURCE_FUNCTION);
        match self.program.functions().get(usize::from(place)) {
            Some(function) => out.put_bytes(function.name.as_slice()),
            None => out.put("?"),
        }
    }

    /// The area in which the address lies.
    pub fn area_at(&self, addr: u64) -> Option<&Area> {
        for area in &self.areas {
            if addr >= area.addr && addr - area.addr < area.size {
                return Some(area);
            }
        }
        None
    }
}
