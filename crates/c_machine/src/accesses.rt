//! Who makes the accesses of a thread.

ghost use Rattle.std.specs.Prelude.{◌≡◌, ℕ, ◌^◌, ◌<◌, ◌≤◌, None, IfSome, IsTrue, IsFalse};
ghost use Rattle.marks.specs.Wants.{Answer, Go, Value};
ghost use Rattle.c_machine.specs.declared.wants.Want.{Want as Shown};
ghost use Rattle.c_machine.specs.declared.wants.Want.TheVariants as want;

/// Makes the accesses of a thread and the rounds of its loops, as far as it can at once: what it refuses is made by others later, and
/// leaves it as it was.
pub trait Accesses {
    // a mark that is wanted was made, and gives this answer: from one value to the next
    ghost makes: { Self → Shown → Answer → Self → Type 0 };

    // how many marks more it makes at most
    ghost left: { Self → ℕ };

    /// The number in `width` bytes, 1 to 8, from the address on, the lowest first; `None` where it is refused.
    fn load(&mut self, addr: u64, width: u8) -> Option<u64>
        requires some { 1 ≤ width }
        requires few { width ≤ 8 }
        ensures fits { IfSome result (λ value. value < 256 ^ width) }
        ensures loaded { IfSome result (λ value.
            makes self.old (want.Load addr width) (Value value) self.new) }
        ensures less { IfSome result (λ value. left self.new < left self.old) }
        ensures refused { result ≡ None → self.new ≡ self.old };

    /// Writes the number to `width` bytes, 1 to 8, from the address on, the lowest first; false where it is refused.
    fn store(&mut self, addr: u64, width: u8, value: u64) -> bool
        requires some { 1 ≤ width }
        requires few { width ≤ 8 }
        requires fits { value < 256 ^ width }
        ensures stored { IsTrue result → makes self.old (want.Store addr width value) Go self.new }
        ensures less { IsTrue result → left self.new < left self.old }
        ensures refused { IsFalse result → self.new ≡ self.old };

    /// A loop begins a round; false where it is refused.
    fn turn(&mut self) -> bool
        ensures turned { IsTrue result → makes self.old want.Turn Go self.new }
        ensures less { IsTrue result → left self.new < left self.old }
        ensures refused { IsFalse result → self.new ≡ self.old };
}
