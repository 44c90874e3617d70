//! The stubs of a source.

ghost use Rattle.std.specs.Prelude.{◌≡◌, ◌+◌, ◌≤◌, ◌++◌, if◌then◌else◌, ◌==◌, ℕ, length, None, Some, IfOk, OnOk};
ghost use Rattle.stub_operations.specs.Operations.{passed};
ghost use Rattle.stub_operations.specs.Stubs.{added_at, below_at};
ghost use Rattle.call_operations.specs.Sets.{AreStubs, below_of, builtin_at, is_external, operations_in, stubs_of};

use crate::calls::{operations, operations_below};
use annot_reader::Iface;
use annot_reader_words::Annots;
use c_builtins::{BUILTINS, FIRST_SOURCE_FUNCTION};
use c_types_program::Function;
use std::alloc::{AllocError, Global};
use stub_operations::{Purpose, StubOp, StubSet, builtin_operations};

fn builtin_at(func: u16) -> &'static [StubOp]
    ensures { result.now ≡ builtin_at func }
{
    match BUILTINS.get(usize::from(func)) {
        Some(builtin) => builtin_operations(*builtin),
        None => &[],
    }
}

// What is done at the calls of a function of the interface with these annotations.
fn operations_in(alloc: Global, func: u16, annots: &Annots) -> Result<Vec<StubOp>, AllocError>
    ensures { IfOk result (λ v. v.items ≡ operations_in func annots.now) }
{
    if func < FIRST_SOURCE_FUNCTION {
        Vec::from_slice(alloc, builtin_at(func))
    } else {
        operations(alloc, annots)
    }
}

// The same in a set for this purpose.
fn stub(
    alloc: Global,
    purpose: Purpose,
    func: u16,
    annots: &Annots,
) -> Result<Vec<StubOp>, AllocError>
    ensures { IfOk result (λ v. v.items ≡ operations_in func annots.now ++ passed purpose) }
{
    let mut ops = operations_in(alloc, func, annots)?;
    match purpose {
        Purpose::Record => ops.push(StubOp::Pass)?,
        Purpose::Replay => {}
    }
    Ok(ops)
}

// Whether it is a function of the source that the source doesn't define.
fn is_external(functions: &[Function], func: u16) -> bool
    ensures { result ≡ is_external functions.now func }
{
    if func < FIRST_SOURCE_FUNCTION {
        return false;
    }
    match functions.get(usize::from(func - FIRST_SOURCE_FUNCTION)) {
        Some(function) => function.body.is_none(),
        None => false,
    }
}

// Adds the function, of which the set has nothing, where it is one of the interface or an external.
fn add_function(
    alloc: Global,
    set: &mut StubSet,
    purpose: Purpose,
    functions: &[Function],
    iface: &Iface,
    func: u16,
) -> Result<(), AllocError>
    requires added { added_at set.old func ≡ None }
    requires below { below_at set.old func ≡ None }
    ensures added { OnOk result ((f : ℕ) → added_at set.new f ≡
        (if f == func then stubs_of purpose iface.now func else added_at set.old f)) }
    ensures below { OnOk result ((f : ℕ) → below_at set.new f ≡
        (if f == func then below_of functions.now iface.now func else below_at set.old f)) }
{
    match iface.annots(func) {
        Some(annots) => set.add(func, stub(alloc, purpose, func, annots)?),
        None if is_external(functions, func) => {
            set.add_below(func, operations_below(alloc, iface.declared(func))?)
        }
        None => Ok(()),
    }
}

/// The stubs of a source for this purpose: each function of the interface is added with what is done at its calls, each external
/// outside it below the cut, and no other function. `AllocError` where there is no memory for them.
pub fn stubs(
    alloc: Global,
    purpose: Purpose,
    functions: &[Function],
    iface: &Iface,
) -> Result<StubSet, AllocError>
    requires { 16 + length functions.now ≤ 65536 }
    ensures { IfOk result (AreStubs purpose functions.now iface.now) }
{
    let mut set = StubSet::new(alloc);
    let count = usize::from(FIRST_SOURCE_FUNCTION) + functions.len();
    for number in 0..count {
        add_function(alloc, &mut set, purpose, functions, iface, number as u16)?;
    }
    Ok(set)
}
