//! Faults: what ends a run as a part of it.

ghost use Rattle.std.specs.Prelude.{◌≡◌};
ghost use Rattle.marks.specs.Kinds.{fault_number, fault_word};

/// Why a thread's code can't go on.
#[derive(Clone, Copy)]
pub enum FaultKind {
    /// A zero divisor, or the least signed value divided by -1.
    Divide,
    /// A shift count below 0, or not below the width.
    Shift,
    /// A byte of no live object, or a block to be freed that isn't there.
    NotLive,
    /// A write to a constant.
    ReadOnly,
    /// No room on the thread's stack, or too many frames on it.
    StackFull,
    /// A call through a pointer to no function of its type.
    BadCall,
}

impl FaultKind {
    /// The number of the fault, 1 to 6, as logs hold it.
    pub fn number(self) -> u8
        ensures { result ≡ fault_number self }
    {
        match self {
            FaultKind::Divide => 1,
            FaultKind::Shift => 2,
            FaultKind::NotLive => 3,
            FaultKind::ReadOnly => 4,
            FaultKind::StackFull => 5,
            FaultKind::BadCall => 6,
        }
    }

    /// The word that reports have for the fault.
    pub fn word(self) -> &'static str
        ensures { result.now ≡ fault_word self }
    {
        match self {
            FaultKind::Divide => "divide",
            FaultKind::Shift => "shift",
            FaultKind::NotLive => "notlive",
            FaultKind::ReadOnly => "readonly",
            FaultKind::StackFull => "stackfull",
            FaultKind::BadCall => "badcall",
        }
    }
}
