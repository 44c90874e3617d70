//! What a size is in one call.

ghost use Rattle.std.specs.Prelude.{◌≡◌, length};
ghost use Rattle.stub_core.specs.Sizes.{value_of, size_of, IsWithin, ParamsWithin};
ghost use Rattle.std.specs.List.{All};
ghost use Rattle.r2_num.specs.Operations.{IsAnyValue};

use crate::terms::{Size, Term};

fn value(term: Term, args: &[i128], outcome: i128) -> i128
    requires within { IsWithin (length args.now) term }
    requires args { All IsAnyValue args.now }
    requires outcome { IsAnyValue outcome }
    ensures value { result ≡ value_of args.now outcome term }
    ensures range { IsAnyValue result }
{
    match term {
        Term::Const(number) => number as i128,
        Term::Param(place) => args[place as usize],
        Term::Return => outcome,
    }
}

/// The size in bytes for these arguments and this result: the product of the terms, which may be negative, and
/// 2^127 - 1 where the product is greater.
///
/// Each `Param` names one of the arguments. The arguments and the result are values of integer kinds.
pub fn size(size: &Size, args: &[i128], outcome: i128) -> i128
    requires params { ParamsWithin (length args.now) size.now }
    requires args { All IsAnyValue args.now }
    requires outcome { IsAnyValue outcome }
    ensures { result ≡ size_of size.now args.now outcome }
{
    let first = value(size.a, args, outcome);
    match size.b {
        None => first,
        Some(term) => first.saturating_mul(value(term, args, outcome)),
    }
}
