//! Bytes that are written.

ghost use Rattle.std.specs.Prelude.{Option, ℕ, true, length};
ghost use Rattle.marks.specs.declared.side.Side.TheVariants.{Replay};
ghost use Rattle.marks.specs.Marks.{Store};
ghost use Rattle.space_memory_access.specs.Accesses.{IsAllowed};
ghost use Rattle.space_memory_laws.specs.Changes.{IsWritten, access_on};
ghost use Rattle.reference_recorder_spaces.specs.Next.{IsDone, IsNext};

use marks::Side;
use space_memory::Spaces;

/// Writes bytes from an address on, which code of the side may write.
pub fn put(spaces: &mut Spaces, side: Side, thread: u8, at: u64, bytes: &[u8])
    requires { IsAllowed spaces.old.bytes spaces.old.held.regions
        (access_on side thread at (length bytes.now) true) }
    ensures { IsWritten side spaces.old spaces.new thread at bytes.now }
{
    match spaces.write(side, thread, at, bytes) {
        Ok(()) => (),
        Err(_) => unreachable!("the bytes may be written"),
    }
}

/// Does a Store of these bytes.
pub fn store(spaces: &mut Spaces, thread: u8, at: u64, bytes: &[u8])
    requires { (origin : Option ℕ) × IsNext spaces.old thread (Store origin at bytes.now) }
    ensures { (origin : Option ℕ) → IsDone spaces.old thread (Store origin at bytes.now) spaces.new }
{
    put(spaces, Side::Replay, thread, at, bytes);
}
