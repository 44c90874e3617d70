//! Arguments and results of calls: ints and their patterns of 64 bits.

ghost use Rattle.std.specs.Prelude.{◌≡◌};
ghost use Rattle.c_code.specs.Machine.{first as first_of};
ghost use Rattle.c_code.specs.Values.{written as written_of};
ghost use Rattle.whole_runs.specs.Outcomes.{builtin_of as builtin_at};
ghost use Rattle.recorder_system.specs.Stands.{int_of as int_at};

use c_builtins::{BUILTINS, Builtin};
use r2_num::{IntKind, pattern, wrap};

/// The int that a pattern stands for.
pub fn int_of(value: u64) -> i32
    ensures { result ≡ int_at value }
{
    wrap(IntKind::I32, value as i128) as i32
}

/// The pattern of an int.
pub fn written(value: i32) -> u64
    ensures { result ≡ written_of value }
{
    pattern(IntKind::U64, i128::from(value))
}

/// The builtin with the number.
pub fn builtin_of(func: u16) -> Option<Builtin>
    ensures { result ≡ builtin_at func }
{
    BUILTINS.get(usize::from(func)).copied()
}

/// The first argument, 0 where there is none.
pub fn first(args: &[u64]) -> u64
    ensures { result ≡ first_of args.now }
{
    args.first().copied().unwrap_or(0)
}
