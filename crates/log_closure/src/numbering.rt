//! The keys of a file, numbered as they are first seen. A mark's key is looked up once: from then on its number stands for it.

ghost use Rattle.std.specs.Prelude.{◌≡◌, ◌++◌, List, Some, vec_len, OnOk, IfOk};
ghost use Rattle.std.specs.BTreeMap.{get};
ghost use Rattle.run_events.specs.declared.key.KeyMark.{KeyMark};
ghost use Rattle.log_closure.specs.Tables.{key_cmp};
ghost use Rattle.log_closure.specs.KeyNumbers.{AreNumbers, HaveNumbers, Keeps, number_in, IsNumbering};

use crate::tie::{TieKey, key_of};
use run_events::{KeyMark, Record};
use std::alloc::{AllocError, Global};
use std::collections::BTreeMap;

/// The keys that were seen: the number of each, from 0, and by number how many marks have it (2^32 - 1 where there are more).
#[derive(Drop)]
pub struct Keys {
    pub numbers: BTreeMap<TieKey, u32>,
    pub counts: Vec<u32>,
}

impl Keys {
    /// The number of the key, which has one mark more from now on; the next number where it wasn't seen.
    ///
    /// `AllocError` where there is no memory, or no number, for one more key.
    fn count(&mut self, key: TieKey) -> Result<u32, AllocError>
        requires { AreNumbers self.old.numbers (vec_len self.old.counts) }
        ensures numbers { OnOk result (AreNumbers self.new.numbers (vec_len self.new.counts)) }
        ensures number { IfOk result (λ n. get key_cmp self.new.numbers key ≡ Some n) }
        ensures kept { OnOk result (Keeps self.old.numbers self.new.numbers) }
    {
        if let Some(number) = self.numbers.get(&key).copied() {
            let count = &mut self.counts[number as usize];
            *count = count.saturating_add(1);
            return Ok(number);
        }
        let number = u32::try_from(self.counts.len()).map_err(|_| AllocError)?;
        self.numbers.insert(key, number)?;
        self.counts.push(1)?;
        Ok(number)
    }
}

/// The keys of a file, and for each of its marks, in file order, the number of its key.
#[derive(Drop)]
pub struct Numbering {
    pub keys: Keys,
    pub marks: Vec<u32>,
}

impl Numbering {
    /// Adds the marks of one more record.
    fn add(&mut self, marks: &[KeyMark]) -> Result<(), AllocError>
        requires { AreNumbers self.old.keys.numbers (vec_len self.old.keys.counts) }
        ensures numbers { OnOk result (AreNumbers self.new.keys.numbers (vec_len self.new.keys.counts)) }
        ensures marks { (seen : List KeyMark) →
            HaveNumbers (number_in self.old) seen self.old.marks.items →
            OnOk result (HaveNumbers (number_in self.new) (seen ++ marks.now) self.new.marks.items) }
    {
        for mark in marks {
            let number = self.keys.count(key_of(mark))?;
            self.marks.push(number)?;
        }
        Ok(())
    }
}

/// The numbers of the marks of the records.
pub fn numbering_of(alloc: Global, records: &[Record]) -> Result<Numbering, AllocError>
    ensures { IfOk result (λ n. IsNumbering n records.now) }
{
    let mut numbering = Numbering {
        keys: Keys {
            numbers: BTreeMap::new(alloc),
            counts: Vec::new(alloc),
        },
        marks: Vec::with_capacity(alloc, records.len())?,
    };
    for entry in records {
        let keys = entry.keys.unpacked();
        numbering.add(keys.as_slice())?;
    }
    Ok(numbering)
}
