//! Sets of stubs.

ghost use Rattle.std.specs.Prelude.{◌≡◌, ◌<◌, ◌≤◌, ℕ, [], List, length, ◌==◌, if◌then◌else◌, Some, None, OnOk, OnErr, option_copied};
ghost use Rattle.stub_operations.specs.declared.operation.StubOp.{StubOp as Operation};
ghost use Rattle.stub_operations.specs.Stubs.{operations_at, or_none};

use crate::operation::StubOp;
use std::alloc::{AllocError, Global};
use std::marker::Model;

/// The operations of a function, in order. Contracts see their list.
#[derive(Drop)]
pub struct Operations {
    items: Vec<StubOp>,
}

impl Model for Operations {
    ghost use Rattle.std.specs.Prelude.{List};
    ghost use Rattle.stub_operations.specs.declared.operation.StubOp.{StubOp};

    ghost Value = { List StubOp };

    ghost view = { λ l. l.items.items };
}

impl Operations {
    /// The operations, in order.
    pub fn as_slice(&self) -> &[StubOp]
        ensures { result.now ≡ self.now }
    {
        &self.items
    }
}

impl From<Vec<StubOp>> for Operations {
    ghost from_gives = { λ v l. l ≡ v.items };

    fn from(items: Vec<StubOp>) -> Operations {
        Operations { items }
    }
}

// The operations of functions by number, with nothing at those that have none.
#[derive(Drop)]
struct ByNumber {
    items: Vec<Option<Operations>>,
}

impl Model for ByNumber {
    ghost use Rattle.std.specs.Prelude.{◌≤◌, List, Option, length};
    ghost use Rattle.stub_operations.specs.declared.operation.StubOp.{StubOp};

    ghost Value = { List (Option (List StubOp)) };

    ghost view = { λ l. l.items.items };

    ghost invariant = { λ l. length l.items.items ≤ 65536 };
}

impl ByNumber {
    fn new(alloc: Global) -> ByNumber
        ensures { result ≡ [] }
    {
        ByNumber {
            items: Vec::new(alloc),
        }
    }

    fn as_slice(&self) -> &[Option<Operations>]
        ensures all { result.now ≡ self.now }
        ensures few { length result.now ≤ 65536 }
    {
        &self.items
    }

    // Makes a place for the function.
    #[tactic(auto, using(crate::proofs::Places::one_more))]
    fn grow(&mut self, func: u16) -> Result<(), AllocError>
        ensures same { (f : ℕ) → operations_at self.new f ≡ operations_at self.old f }
        ensures room { OnOk result (func < length self.new) }
    {
        while self.items.len() <= usize::from(func) {
            self.items.push(None)?;
        }
        Ok(())
    }

    // Puts the operations of a function in the place of those that it had.
    #[tactic(auto, using(crate::proofs::Places::one_set))]
    fn put(&mut self, func: u16, ops: Vec<StubOp>) -> Result<(), AllocError>
        ensures put { OnOk result ((f : ℕ) → operations_at self.new f ≡
            (if f == func then Some ops.items else operations_at self.old f)) }
        ensures kept { OnErr result ((f : ℕ) → operations_at self.new f ≡ operations_at self.old f) }
    {
        self.grow(func)?;
        self.items[usize::from(func)] = Some(Operations::from(ops));
        Ok(())
    }

    fn get(&self, func: u16) -> Option<&Operations>
        ensures { option_copied result ≡ operations_at self.now func }
    {
        match self.items.get(usize::from(func)) {
            Some(Some(ops)) => Some(ops),
            _ => None,
        }
    }

    fn operations(&self, func: u16) -> &[StubOp]
        ensures { result.now ≡ or_none (operations_at self.now func) }
    {
        match self.get(func) {
            Some(ops) => ops.as_slice(),
            None => &[],
        }
    }
}

/// What is done at the calls of functions by number: of those of an interface, and below the cut of externals that are outside it.
#[derive(Drop)]
pub struct StubSet {
    added: ByNumber,
    below: ByNumber,
}

impl Model for StubSet {
    ghost use Rattle.stub_operations.specs.Stubs.{Stubs};

    ghost Value = { Stubs };

    ghost view = { λ s. record { added = s.added; below = s.below } };
}

impl StubSet {
    ghost use Rattle.std.specs.Prelude.{is_some};
    ghost use Rattle.stub_operations.specs.Stubs.{added_at, below_at, no_stubs};

    /// No function has operations.
    pub fn new(alloc: Global) -> StubSet
        ensures { result ≡ no_stubs }
    {
        StubSet {
            added: ByNumber::new(alloc),
            below: ByNumber::new(alloc),
        }
    }

    /// Adds a function with its operations, in the place of those that were added with it before. After `AllocError` the set says of
    /// each function what it said.
    pub fn add(&mut self, func: u16, ops: Vec<StubOp>) -> Result<(), AllocError>
        ensures added { OnOk result ((f : ℕ) → added_at self.new f ≡
            (if f == func then Some ops.items else added_at self.old f)) }
        ensures kept { OnErr result ((f : ℕ) → added_at self.new f ≡ added_at self.old f) }
        ensures below { self.new.below ≡ self.old.below }
    {
        self.added.put(func, ops)
    }

    /// Adds a function below the cut with its operations there, in the place of those that were added so before. After `AllocError` the
    /// set says of each function what it said.
    pub fn add_below(&mut self, func: u16, ops: Vec<StubOp>) -> Result<(), AllocError>
        ensures below { OnOk result ((f : ℕ) → below_at self.new f ≡
            (if f == func then Some ops.items else below_at self.old f)) }
        ensures kept { OnErr result ((f : ℕ) → below_at self.new f ≡ below_at self.old f) }
        ensures added { self.new.added ≡ self.old.added }
    {
        self.below.put(func, ops)
    }

    /// The operations of a function that was added by `add`; of any other, none.
    pub fn ops(&self, func: u16) -> &[StubOp]
        ensures { result.now ≡ or_none (added_at self.now func) }
    {
        self.added.operations(func)
    }

    /// The operations below the cut of a function that was added by `add_below`; of any other, none.
    pub fn below(&self, func: u16) -> &[StubOp]
        ensures { result.now ≡ or_none (below_at self.now func) }
    {
        self.below.operations(func)
    }

    /// Whether the function was added by `add`, also with no operation.
    pub fn is_added(&self, func: u16) -> bool
        ensures { result ≡ is_some (added_at self.now func) }
    {
        self.added.get(func).is_some()
    }

    /// The operations of the functions that were added by `add`, by number.
    pub fn added(&self) -> &[Option<Operations>]
        ensures added { result.now ≡ self.now.added }
        ensures few { length result.now ≤ 65536 }
    {
        self.added.as_slice()
    }
}
