//! What is kept of a log.

ghost use Rattle.std.specs.Prelude.{◌≡◌};
ghost use Rattle.log_codec.specs.Kept.{KeptLog, CanBeKept};

use run_events::Record;
use std::marker::Model;

/// The records of a log, or of the bytes that begin one. `parse` makes it.
#[derive(Drop)]
pub struct Kept {
    records: Vec<Record>,
    whole: bool,
}

impl Model for Kept {
    ghost Value = { KeptLog };

    ghost view = { λ k. record { records = k.records.items; whole = k.whole } };

    ghost invariant = { λ k. CanBeKept k.records.items };
}

impl Kept {
    pub(crate) fn new(records: Vec<Record>, whole: bool) -> Kept
        requires { CanBeKept records.items }
        ensures { result ≡ record { records = records.items; whole = whole } }
    {
        Kept { records, whole }
    }

    /// The records that stand in the bytes in full, in file order.
    pub fn records(&self) -> &[Record]
        ensures these { result.now ≡ self.now.records }
        ensures kept { CanBeKept self.now.records }
    {
        &self.records
    }

    /// Whether the bytes were a whole log text, with its end, and not only the beginning of one.
    pub fn whole(&self) -> bool
        ensures { result ≡ self.now.whole }
    {
        self.whole
    }

    /// The records, for an owner that keeps them; no memory is taken.
    pub fn into_records(self) -> Vec<Record>
        ensures these { result.items ≡ self.records }
        ensures kept { CanBeKept self.records }
    {
        let Kept { records, whole: _ } = self;
        records
    }
}
