//! What is done in a call.

ghost use Rattle.std.specs.Prelude.{◌≡◌, true, IfOk, OnOk};
ghost use Rattle.std.specs.List.{All};
ghost use Rattle.r2_num.specs.Operations.{IsAnyValue};
ghost use Rattle.c_code.specs.Valid.{IsValid};
ghost use Rattle.c_code.specs.Machine.{Flat, func_of};
ghost use Rattle.stub_operations.specs.declared.operation.StubOp.TheVariants.{Pass};
ghost use Rattle.stub_meaning.specs.Calls.{Called, both, done as done_in, nothing};
ghost use Rattle.stub_meaning.specs.Meaning.{called, first_of};
ghost use Rattle.stub_calls.specs.Calls.{AreValuesOf, call_keys as call_keys_of, return_keys as return_keys_of};

use crate::keys::{put_callbacks, put_commit, put_keys, put_prepared};
use crate::said::{Committing, Prepared, Said};
use crate::sizes::{number, read_numbers};
use c_code::Code;
use marks::Range;
use run_events::Key;
use std::alloc::{AllocError, Global};
use std::marker::Model;
use stub_operations::StubOp;

/// What is done in one call by the operations of its function: the ranges that system code reads, those that it writes
/// with their capacities and how much of them is used, those that it prepares, what the Ret commits, the functions
/// that are registered, and whether an equal Ret is written as such. It keeps its memory from call to call.
#[derive(Drop)]
pub struct Done {
    said: Said,
    /// The numbers that the arguments of the call are.
    numbers: Vec<i128>,
}

impl Model for Done {
    ghost use Rattle.stub_meaning.specs.Calls.{Done};

    ghost Value = { Done };

    ghost view = { λ d. d.said };
}

impl Done {
    /// Nothing is done.
    pub fn new(alloc: Global) -> Done
        ensures { result ≡ nothing }
    {
        Done {
            said: Said::new(alloc),
            numbers: Vec::new(alloc),
        }
    }

    /// Reads the call of a function with these arguments and this result, by the operations of the function. Before
    /// the result is known it is 0. After `AllocError` it may hold a part of what is done; it can be filled again.
    pub fn fill(
        &mut self,
        code: &Code,
        ops: &[StubOp],
        func: u16,
        args: &[u64],
        returned: u64,
    ) -> Result<(), AllocError>
        requires { IsValid code.now }
        ensures { OnOk result (self.new ≡
            done_in code.now (called (func_of code.now func) args.now returned) ops.now) }
    {
        self.said.clear();
        if say_nothing(ops) {
            return Ok(());
        }
        self.add(code, ops, func, args, returned)
    }

    /// Reads the call at its return, once its result is known. The ranges that system code writes go to `held`, with
    /// their capacities as they were at the call. After `AllocError` both may hold a part.
    pub fn fill_at_return(
        &mut self,
        code: &Code,
        ops: &[StubOp],
        func: u16,
        args: &[u64],
        returned: u64,
        held: &mut Vec<Range>,
    ) -> Result<(), AllocError>
        requires { IsValid code.now }
        ensures done { OnOk result (self.new ≡
            done_in code.now (called (func_of code.now func) args.now returned) ops.now) }
        ensures held { OnOk result (held.new.items ≡
            (done_in code.now (called (func_of code.now func) args.now 0) ops.now).outs) }
    {
        held.clear();
        if say_nothing(ops) {
            self.said.clear();
            return Ok(());
        }
        self.fill(code, ops, func, args, 0)?;
        held.extend_from_slice(self.outs())?;
        self.fill(code, ops, func, args, returned)
    }

    // Adds what these operations say of the call. Where they say nothing there is no need to pay for it.
    #[inline(never)]
    fn add(
        &mut self,
        code: &Code,
        ops: &[StubOp],
        func: u16,
        args: &[u64],
        returned: u64,
    ) -> Result<(), AllocError>
        requires { IsValid code.now }
        ensures { OnOk result (self.new ≡ both self.old
            (done_in code.now (called (func_of code.now func) args.now returned) ops.now)) }
    {
        let outcome = read(&mut self.numbers, code, func, args, returned)?;
        add_all(&mut self.said, code, ops, args, &self.numbers, outcome)
    }

    /// The ranges that system code reads.
    pub fn ins(&self) -> &[Range]
        ensures { result.now ≡ self.now.ins }
    {
        &self.said.ins
    }

    /// The ranges that system code writes before the Ret, with their capacities.
    pub fn outs(&self) -> &[Range]
        ensures { result.now ≡ self.now.outs }
    {
        &self.said.outs
    }

    /// The ranges that are prepared, with their capacities, each under its key.
    pub fn prepares(&self) -> &[Prepared]
        ensures { result.now ≡ self.now.prepares }
    {
        &self.said.prepares
    }

    /// How many bytes of each range of `outs` are used.
    pub fn used(&self) -> &[u64]
        ensures { result.now ≡ self.now.used }
    {
        &self.said.used
    }

    /// What the Ret commits, if anything.
    pub fn commit(&self) -> Option<Committing>
        ensures { result ≡ first_of self.now.commits }
    {
        self.said.commits.first().copied()
    }

    /// The functions that are registered.
    pub fn registers(&self) -> &[u16]
        ensures { result.now ≡ self.now.registers }
    {
        &self.said.registers
    }

    /// Whether a Ret that equals the thread's last one of the function is written as such.
    pub fn is_cached(&self) -> bool
        ensures { result ≡ self.now.is_cached }
    {
        self.said.is_cached
    }

    /// The keys of the Call, each once, by class and then by value.
    pub fn call_keys(&self, keys: &mut Vec<Key>) -> Result<(), AllocError>
        ensures { OnOk result (keys.new.items ≡ call_keys_of self.now) }
    {
        keys.clear();
        put_prepared(keys, self.prepares())?;
        put_callbacks(keys, self.registers())?;
        put_keys(keys, self.keys_at_call())
    }

    /// The keys of the Ret, each once, by class and then by value.
    pub fn return_keys(&self, keys: &mut Vec<Key>) -> Result<(), AllocError>
        ensures { OnOk result (keys.new.items ≡ return_keys_of self.now) }
    {
        keys.clear();
        put_commit(keys, self.commit())?;
        put_keys(keys, self.keys_at_return())
    }

    // The keys of the Call that are said, in the order of operations.
    fn keys_at_call(&self) -> &[Key]
        ensures { result.now ≡ self.now.keys_at_call }
    {
        &self.said.keys_at_call
    }

    // Those of the Ret.
    fn keys_at_return(&self) -> &[Key]
        ensures { result.now ≡ self.now.keys_at_return }
    {
        &self.said.keys_at_return
    }
}

/// Whether these operations say nothing of any call.
fn say_nothing(ops: &[StubOp]) -> bool
    ensures { result ≡ true → (code : Flat) (c : Called) → nothing ≡ done_in code c ops.now }
{
    for op in ops {
        if !is_pass(op) {
            return false;
        }
    }
    true
}

fn is_pass(op: &StubOp) -> bool
    ensures { result ≡ true → op.now ≡ Pass }
{
    match op {
        StubOp::Pass => true,
        StubOp::ReadIn { .. }
        | StubOp::HoldOut { .. }
        | StubOp::Prepare { .. }
        | StubOp::Register { .. }
        | StubOp::Commit { .. }
        | StubOp::KeyAtCall { .. }
        | StubOp::KeyAtRet { .. }
        | StubOp::CacheRet => false,
    }
}

/// Reads the numbers that the arguments of a call of the function are, and gives the number of its result.
fn read(
    numbers: &mut Vec<i128>,
    code: &Code,
    func: u16,
    args: &[u64],
    returned: u64,
) -> Result<i128, AllocError>
    ensures values { IfOk result (λ outcome. AreValuesOf args.now numbers.new.items outcome
        (called (func_of code.now func) args.now returned)) }
    ensures outcome { IfOk result IsAnyValue }
    ensures numbers { OnOk result (All IsAnyValue numbers.new.items) }
{
    match code.func(func) {
        Some(info) => {
            read_numbers(numbers, info.params.as_slice(), args)?;
            Ok(number(info.result, returned))
        }
        None => {
            numbers.clear();
            Ok(0)
        }
    }
}

/// Adds what each operation says, in their order.
fn add_all(
    said: &mut Said,
    code: &Code,
    ops: &[StubOp],
    args: &[u64],
    numbers: &[i128],
    outcome: i128,
) -> Result<(), AllocError>
    requires code { IsValid code.now }
    requires numbers { All IsAnyValue numbers.now }
    requires outcome { IsAnyValue outcome }
    ensures { OnOk result ((c : Called) → AreValuesOf args.now numbers.now outcome c →
        said.new ≡ both said.old (done_in code.now c ops.now)) }
{
    for op in ops {
        said.add(code, op, args, numbers, outcome)?;
    }
    Ok(())
}
