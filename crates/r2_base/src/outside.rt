//! The outside, as a program sees it: files by name, and sinks for bytes.

ghost use Rattle.std.specs.Prelude.{◌≡◌, ◌≤◌, [], Some, IsTrue, OnOk, OnErr, IfOk, IfErr, length};
ghost use Rattle.r2_base.specs.Causes.{IsReadCause, IsWriteCause};
ghost use Rattle.r2_base.specs.Seen.{Store, Stream, OnlyReads, OnlyWrites};
ghost use Rattle.r2_base.specs.Sinks.{TellsGrowth};
ghost use Rattle.r2_base.specs.Names.{Reads, GrowsFile};

use crate::fault::Fault;

/// Takes bytes, one piece after another.
pub trait Sink {
    // the bytes so far, where they are told, and how many faults there were, up to 2^64 - 1
    ghost seen: { Self → Stream };

    /// Adds the piece; after a refusal a prefix of it was added. Never `Missing`.
    fn put(&mut self, piece: &[u8]) -> Result<(), Fault>
        ensures bytes { TellsGrowth (seen self.old).given (seen self.new).given result piece.now }
        ensures later { (seen self.old).faults ≤ (seen self.new).faults }
        ensures cause { IfErr result (IsWriteCause (seen self.old).faults (seen self.new).faults) };
}

/// Keeps bytes under names.
pub trait Files {
    // what the names hold, where that is told, and how many faults there were of reading and of `fresh` and `append`,
    // each count up to 2^64 - 1
    ghost seen: { Self → Store };

    /// Puts bytes of the name, from a place on, at the start of `into`, and answers how many: 0 exactly at the end of
    /// what the name holds, or where `into` is empty. `Missing` where the name isn't there.
    fn read_at(&mut self, name: &str, from: u64, into: &mut [u8]) -> Result<usize, Fault>
        ensures only { OnlyReads (seen self.old) (seen self.new) }
        ensures bytes { IsTrue (seen self.old).tells
            → Reads ((seen self.old).holds name.now) from into.new result }
        ensures room { IfOk result (λ n. n ≤ length into.new) }
        ensures cause { IfErr result (IsReadCause (seen self.old).read_faults (seen self.new).read_faults) };

    /// Makes the name hold nothing. Never `Missing`.
    fn fresh(&mut self, name: &str) -> Result<(), Fault>
        ensures only { OnlyWrites name.now (seen self.old) (seen self.new) }
        ensures empty { IsTrue (seen self.old).tells
            → OnOk result ((seen self.new).holds name.now ≡ Some []) }
        ensures kept { IsTrue (seen self.old).tells
            → OnErr result ((seen self.new).holds name.now ≡ (seen self.old).holds name.now) }
        ensures cause { IfErr result (IsWriteCause (seen self.old).write_faults
            (seen self.new).write_faults) };

    /// Adds the piece to what the name holds, to nothing where it isn't there; after a refusal a prefix of it was added.
    /// Never `Missing`.
    fn append(&mut self, name: &str, piece: &[u8]) -> Result<(), Fault>
        ensures only { OnlyWrites name.now (seen self.old) (seen self.new) }
        ensures grows { IsTrue (seen self.old).tells
            → GrowsFile ((seen self.old).holds name.now) ((seen self.new).holds name.now) result piece.now }
        ensures cause { IfErr result (IsWriteCause (seen self.old).write_faults
            (seen self.new).write_faults) };
}
