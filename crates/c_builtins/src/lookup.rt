//! Which builtin has a name or a number.

ghost use Rattle.std.specs.Prelude.{◌≡◌, ◌↔◌, IsTrue, Some, nat_eq};
ghost use Rattle.std.specs.List.{find};
ghost use Rattle.std.specs.Cmp.Lexicographic.{pointwise};
ghost use Rattle.c_builtins.specs.declared.builtin.Builtin.{Builtin};
ghost use Rattle.c_builtins.specs.Table.{IsReserved, name_of, number_of};

use crate::builtin::Builtin;

/// The builtins, by number.
pub const BUILTINS: [Builtin; 7] = [
    Builtin::Malloc,
    Builtin::Free,
    Builtin::Spawn,
    Builtin::Join,
    Builtin::Lock,
    Builtin::Unlock,
    Builtin::Print,
];

/// The number of the first function that a source declares. All builtins have lower numbers.
pub const FIRST_SOURCE_FUNCTION: u16 = 16;

/// Whether a source may not declare the name, since it begins with `r2_`.
pub fn is_reserved(name: &[u8]) -> bool
    ensures { IsTrue result ↔ IsReserved name.now }
{
    name.starts_with(b"r2_")
}

#[tactic(auto, using(crate::proofs::Names::find_on, crate::proofs::Names::find_stop, crate::proofs::Names::find_end))]
fn first_named(builtins: &[Builtin], name: &[u8]) -> Option<Builtin>
    ensures { result ≡ find (λ b. pointwise nat_eq name.now (name_of b)) builtins.now }
{
    for builtin in builtins {
        if name == builtin.name() {
            return Some(*builtin);
        }
    }
    None
}

impl Builtin {
    /// The builtin of this name; `None` where no builtin has it.
    pub fn of_name(name: &[u8]) -> Option<Builtin>
        ensures { (b : Builtin) → (result ≡ Some b) ↔ (name_of b ≡ name.now) }
    {
        first_named(&BUILTINS, name)
    }

    /// The builtin of this number; `None` where no builtin has it.
    pub fn of_number(number: u16) -> Option<Builtin>
        ensures { (b : Builtin) → (result ≡ Some b) ↔ (number_of b ≡ number) }
    {
        match number {
            0 => Some(Builtin::Malloc),
            1 => Some(Builtin::Free),
            2 => Some(Builtin::Spawn),
            3 => Some(Builtin::Join),
            4 => Some(Builtin::Lock),
            5 => Some(Builtin::Unlock),
            6 => Some(Builtin::Print),
            _ => None,
        }
    }
}
