//! What operations say of a call, one after the other.

ghost use Rattle.std.specs.Prelude.{◌≡◌, [], ◌∷◌, OnOk, option_to_list};
ghost use Rattle.std.specs.List.{All};
ghost use Rattle.r2_num.specs.Operations.{IsAnyValue};
ghost use Rattle.c_code.specs.Valid.{IsValid};
ghost use Rattle.stub_meaning.specs.Calls.{Called, both, done_by, extent as extent_of, key_value as key_value_of, nothing, region as region_of, released};
ghost use Rattle.replay_runs.specs.Keys.{key as key_of};
ghost use Rattle.stub_calls.specs.Calls.{AreValuesOf};

use crate::sizes::{argument, counted, extent, function_at, size_in};
use c_code::Code;
use marks::Range;
use run_events::{Class, Key};
use std::alloc::{AllocError, Global};
use std::marker::Model;
use stub_core::Size;
use stub_operations::StubOp;

/// A range that a call prepares, under its key.
#[derive(Clone, Copy)]
pub struct Prepared {
    pub key: u64,
    pub range: Range,
}

impl Model for Prepared {
    ghost use Rattle.marks.specs.Ranges.{Prepared};

    ghost Value = { Prepared };

    ghost view = { λ p. record { key = p.key; range = p.range } };

    ghost inverse = { λ p. record { key = p.key; range = p.range } };
}

/// What a Ret commits: the key, and how many bytes of the region are used; `None` where the size is negative.
#[derive(Clone, Copy)]
pub struct Committing {
    pub key: u64,
    pub used: Option<u64>,
}

impl Model for Committing {
    ghost use Rattle.replay_runs.specs.Interface.{Committing};

    ghost Value = { Committing };

    ghost view = { λ c. record { key = c.key; used = c.used } };

    ghost inverse = { λ c. record { key = c.key; used = c.used } };
}

/// What is said so far. Keys go in the order of operations.
#[derive(Drop)]
pub struct Said {
    pub ins: Vec<Range>,
    pub outs: Vec<Range>,
    pub prepares: Vec<Prepared>,
    pub used: Vec<u64>,
    pub commits: Vec<Committing>,
    pub registers: Vec<u16>,
    pub keys_at_call: Vec<Key>,
    pub keys_at_return: Vec<Key>,
    pub is_cached: bool,
}

impl Model for Said {
    ghost use Rattle.stub_meaning.specs.Calls.{Done};

    ghost Value = { Done };

    ghost view = { λ d. record {
      ins = d.ins.items;
      outs = d.outs.items;
      prepares = d.prepares.items;
      used = d.used.items;
      commits = d.commits.items;
      registers = d.registers.items;
      keys_at_call = d.keys_at_call.items;
      keys_at_return = d.keys_at_return.items;
      is_cached = d.is_cached;
    } };
}

/// A range of memory that operations speak of. NULL has no bytes.
fn region(args: &[u64], numbers: &[i128], outcome: i128, param: u8, size: &Size) -> Range
    requires numbers { All IsAnyValue numbers.now }
    requires outcome { IsAnyValue outcome }
    ensures { (c : Called) → AreValuesOf args.now numbers.now outcome c →
        result ≡ region_of c param size.now }
{
    let addr = argument(args, param);
    Range {
        addr,
        len: extent(addr, size_in(size, numbers, outcome)),
    }
}

/// How much is used of a region.
fn used(args: &[u64], numbers: &[i128], outcome: i128, param: u8, size: &Size) -> u64
    requires numbers { All IsAnyValue numbers.now }
    requires outcome { IsAnyValue outcome }
    ensures { (c : Called) → AreValuesOf args.now numbers.now outcome c →
        result ≡ extent_of c param size.now }
{
    extent(argument(args, param), size_in(size, numbers, outcome))
}

/// A key of a parameter's value, of 0 where there is none.
fn key(args: &[u64], class: Class, param: Option<u8>) -> Key
    ensures { (c : Called) → args.now ≡ c.args → result ≡ key_of class (key_value_of c param) }
{
    let value = match param {
        Some(place) => argument(args, place),
        None => 0,
    };
    Key { class, value }
}

impl Said {
    /// Nothing is said.
    pub fn new(alloc: Global) -> Said
        ensures { result ≡ nothing }
    {
        Said {
            ins: Vec::new(alloc),
            outs: Vec::new(alloc),
            prepares: Vec::new(alloc),
            used: Vec::new(alloc),
            commits: Vec::new(alloc),
            registers: Vec::new(alloc),
            keys_at_call: Vec::new(alloc),
            keys_at_return: Vec::new(alloc),
            is_cached: false,
        }
    }

    /// Forgets all that was said.
    pub fn clear(&mut self)
        ensures { self.new ≡ nothing }
    {
        self.ins.clear();
        self.outs.clear();
        self.prepares.clear();
        self.used.clear();
        self.commits.clear();
        self.registers.clear();
        self.keys_at_call.clear();
        self.keys_at_return.clear();
        self.is_cached = false;
    }

    /// Adds what one operation says of the call with these arguments, whose numbers these are and whose result is this
    /// number.
    pub fn add(
        &mut self,
        code: &Code,
        op: &StubOp,
        args: &[u64],
        numbers: &[i128],
        outcome: i128,
    ) -> Result<(), AllocError>
        requires code { IsValid code.now }
        requires numbers { All IsAnyValue numbers.now }
        requires outcome { IsAnyValue outcome }
        ensures { OnOk result ((c : Called) → AreValuesOf args.now numbers.now outcome c →
            self.new ≡ both self.old (done_by code.now c op.now)) }
    {
        match op {
            StubOp::ReadIn { param, size } => {
                self.read_in(region(args, numbers, outcome, *param, size))
            }
            StubOp::HoldOut {
                param,
                cap,
                used: size,
            } => {
                let range = region(args, numbers, outcome, *param, cap);
                self.hold(range, used(args, numbers, outcome, *param, size))
            }
            StubOp::Prepare { param, key, cap } => {
                let range = region(args, numbers, outcome, *param, cap);
                self.prepare(argument(args, *key), range)
            }
            StubOp::Register { param } => self.register(function_at(code, argument(args, *param))),
            StubOp::Commit { key, used: size } => {
                self.commit(argument(args, *key), size_in(size, numbers, outcome))
            }
            StubOp::KeyAtCall { class, param } => self.key_at_call(key(args, *class, *param)),
            StubOp::KeyAtRet { class, param } => self.key_at_return(key(args, *class, *param)),
            StubOp::CacheRet => {
                self.is_cached = true;
                Ok(())
            }
            StubOp::Pass => Ok(()),
        }
    }

    fn read_in(&mut self, range: Range) -> Result<(), AllocError>
        ensures { OnOk result (self.new ≡ both self.old (record nothing { ins = range ∷ [] })) }
    {
        self.ins.push(range)?;
        Ok(())
    }

    fn hold(&mut self, range: Range, used: u64) -> Result<(), AllocError>
        ensures { OnOk result (self.new ≡ both self.old (record nothing {
          outs = range ∷ [];
          used = used ∷ [];
        })) }
    {
        self.outs.push(range)?;
        self.used.push(used)?;
        Ok(())
    }

    fn prepare(&mut self, key: u64, range: Range) -> Result<(), AllocError>
        ensures { OnOk result (self.new ≡ both self.old (record nothing {
          prepares = record { key = key; range = range } ∷ [];
        })) }
    {
        self.prepares.push(Prepared { key, range })?;
        Ok(())
    }

    fn register(&mut self, func: Option<u16>) -> Result<(), AllocError>
        ensures { OnOk result (self.new ≡ both self.old (record nothing {
          registers = option_to_list func;
        })) }
    {
        if let Some(func) = func {
            self.registers.push(func)?;
        }
        Ok(())
    }

    fn commit(&mut self, key: u64, size: i128) -> Result<(), AllocError>
        ensures { OnOk result (self.new ≡ both self.old (record nothing {
          commits = record { key = key; used = released size } ∷ [];
        })) }
    {
        let used = if size < 0 { None } else { Some(counted(size)) };
        self.commits.push(Committing { key, used })?;
        Ok(())
    }

    fn key_at_call(&mut self, key: Key) -> Result<(), AllocError>
        ensures { OnOk result (self.new ≡ both self.old (record nothing { keys_at_call = key ∷ [] })) }
    {
        self.keys_at_call.push(key)?;
        Ok(())
    }

    fn key_at_return(&mut self, key: Key) -> Result<(), AllocError>
        ensures { OnOk result (self.new ≡ both self.old (record nothing { keys_at_return = key ∷ [] })) }
    {
        self.keys_at_return.push(key)?;
        Ok(())
    }
}
