//! Breaches: steps that a run doesn't make.

ghost use Rattle.std.specs.Prelude.{◌≡◌};
ghost use Rattle.marks.specs.Kinds.{breach_number, breach_word};

/// Why a step would break the discipline of a run.
#[derive(Clone, Copy)]
pub enum BreachKind {
    /// An earlier access of another thread isn't ordered before this one, and one of them writes.
    Race,
    /// Replay code touches a pending byte.
    Pending,
    /// Code of one space touches a byte of the other without right.
    OtherSpace,
    /// A used size is above the capacity, or a byte past it was changed.
    Size,
    /// A function is called or registered for a mode in which it may not run.
    Mode,
    /// A region is prepared under a key that is in use.
    KeyInUse,
    /// A region is committed under a key that isn't in use.
    NoKey,
}

impl BreachKind {
    /// The number of the breach, 1 to 7.
    pub fn number(self) -> u8
        ensures { result ≡ breach_number self }
    {
        match self {
            BreachKind::Race => 1,
            BreachKind::Pending => 2,
            BreachKind::OtherSpace => 3,
            BreachKind::Size => 4,
            BreachKind::Mode => 5,
            BreachKind::KeyInUse => 6,
            BreachKind::NoKey => 7,
        }
    }

    /// The word that the status line has for the breach.
    pub fn word(self) -> &'static str
        ensures { result.now ≡ breach_word self }
    {
        match self {
            BreachKind::Race => "race",
            BreachKind::Pending => "pending",
            BreachKind::OtherSpace => "otherspace",
            BreachKind::Size => "size",
            BreachKind::Mode => "mode",
            BreachKind::KeyInUse => "keyinuse",
            BreachKind::NoKey => "nokey",
        }
    }
}
