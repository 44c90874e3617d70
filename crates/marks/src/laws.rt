//! Laws of every mark, as contracts of functions that do nothing.

ghost use Rattle.std.specs.Prelude.{◌≡◌, true, false, ℕ, List, Some};
ghost use Rattle.marks.specs.Marks.{Act};
ghost use Rattle.marks.specs.Bytes.{Asks, Byte, leaves, touches, writes};
ghost use Rattle.marks.specs.Wants.{Answer, Below, Gives, Returns, Value, answer_to};

/// A mark leaves a byte that it doesn't write as it was.
pub fn unwritten_bytes_stay()
    ensures { (a : Act) (x : ℕ) (b : Byte) → writes a x ≡ false → leaves a x b ≡ b }
{}

/// What a mark asks of memory, it asks of the bytes that it touches.
pub fn only_touched_bytes_count()
    ensures { (a : Act) (c d : ℕ → Byte) → ((x : ℕ) → touches a x ≡ true → c x ≡ d x) → Asks a c →
        Asks a d }
{}

/// The return of a call is one that any code below the cut may make: of the same function, with the same arguments. Where the
/// function has a body, the return has the result that the body gave.
pub fn returns_are_below()
    ensures given { (f : ℕ) (args : List ℕ) (v : ℕ) (act : Act) (x : Answer) →
        answer_to (Returns f args v) act ≡ Some x → answer_to (Below f args) act ≡ Some (Value v) }
    ensures free { (f : ℕ) (args : List ℕ) (act : Act) (x : Answer) →
        answer_to (Gives f args) act ≡ Some x → answer_to (Below f args) act ≡ Some x }
{}
