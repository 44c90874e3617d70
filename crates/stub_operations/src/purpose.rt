//! What a set of stubs is for.

ghost use Rattle.std.specs.Prelude.{◌≡◌};
ghost use Rattle.stub_operations.specs.Operations.{word_of};

/// What a set of stubs is for.
#[derive(Clone, Copy)]
pub enum Purpose {
    /// A run that is recorded: calls go on to what is below.
    Record,
    /// A replay, which has nothing below.
    Replay,
}

impl Purpose {
    /// The word that the text of the set has.
    pub fn word(self) -> &'static str
        ensures { result.now ≡ word_of self }
    {
        match self {
            Purpose::Record => "record",
            Purpose::Replay => "replay",
        }
    }
}
