//! Constants and strings (C11 6.4.4, 6.4.5).

ghost use Rattle.std.specs.Prelude.{◌≡◌, false, length, pos, true};
ghost use Rattle.r2_num.specs.declared.kinds.IntKind.TheVariants.{I32};
ghost use Rattle.c_types_rules.specs.Checked.{Fine};
ghost use Rattle.c_types_rules.specs.Expressions.{number_kind as number_kind_of};
ghost use Rattle.c_types_rules.specs.TypedTree.{AValue, AnObject, Constant, TextObject};
ghost use Rattle.c_types_operators.specs.Answers.{Agrees, StandsAt};
ghost use Rattle.c_types_environment.specs.States.{KeepsAll};
ghost use Rattle.c_syntax_laws.specs.Numbers.{IsNumber};

use c_lexer::{Suffix, Text};
use c_types_environment::Environment;
use c_types_nodes::{Node, NodeId, Number};
use c_types_operators::TypeError;
use r2_num::IntKind;
use std::alloc::AllocError;

// The first of the kinds that a decimal number may have which can represent it (C11 6.4.4.1, 5).
fn decimal_kind(value: u64, suffix: Suffix) -> IntKind
    ensures { result ≡ number_kind_of value suffix true }
{
    match suffix {
        Suffix::Plain if value < 1 << 31 => IntKind::I32,
        Suffix::Plain | Suffix::L => IntKind::I64,
        Suffix::U if value < 1 << 32 => IntKind::U32,
        Suffix::U | Suffix::UL => IntKind::U64,
    }
}

// The same of an octal or hexadecimal number.
fn other_kind(value: u64, suffix: Suffix) -> IntKind
    ensures { result ≡ number_kind_of value suffix false }
{
    match suffix {
        Suffix::Plain if value < 1 << 31 => IntKind::I32,
        Suffix::Plain | Suffix::U if value < 1 << 32 => IntKind::U32,
        Suffix::Plain | Suffix::L if value < 1 << 63 => IntKind::I64,
        _ => IntKind::U64,
    }
}

fn number_kind(value: u64, suffix: Suffix, decimal: bool) -> IntKind
    ensures { result ≡ number_kind_of value suffix decimal }
{
    if decimal {
        decimal_kind(value, suffix)
    } else {
        other_kind(value, suffix)
    }
}

/// A number.
pub fn number(
    env: &mut Environment,
    value: u64,
    suffix: Suffix,
    decimal: bool,
) -> Result<NodeId, TypeError>
    requires { IsNumber value suffix decimal }
    ensures agrees { Agrees (StandsAt env.new.table)
        (Fine (AValue (Constant (number_kind_of value suffix decimal) (pos value)))) result }
    ensures kept { KeepsAll env.old env.new }
{
    let kind = number_kind(value, suffix, decimal);
    Ok(env.add(Node::Constant(kind, Number::from(value)))?)
}

/// A character (C11 6.4.4.4, 10).
pub fn character(env: &mut Environment, value: i8) -> Result<NodeId, TypeError>
    ensures agrees { Agrees (StandsAt env.new.table) (Fine (AValue (Constant I32 value))) result }
    ensures kept { KeepsAll env.old env.new }
{
    Ok(env.add(Node::Constant(IntKind::I32, Number::from(value)))?)
}

/// The object of a string, which stands at the offset.
pub fn string(env: &mut Environment, from: u32, text: &Text) -> Result<NodeId, TypeError>
    ensures agrees { Agrees (StandsAt env.new.table) (Fine (AnObject (TextObject from (length text.now))))
        result }
    ensures kept { KeepsAll env.old env.new }
{
    let length = u32::try_from(text.as_slice().len()).map_err(|_| AllocError)?;
    Ok(env.add(Node::TextObject { from, length })?)
}
