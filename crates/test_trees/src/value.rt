// Values that declarations give.

ghost use Rattle.test_trees.specs.Parts.{ValueFits, AreValues};

use crate::expression::show_expr;
use c_syntax::{Tree, Value};
use test_cases::Output;

/// The value, to so many nodes below one another.
#[cycle(value)]
pub fn show_value(tree: &Tree, value: &Value, depth: u8, out: &mut Output)
    requires { ValueFits tree.now value.now }
{
    if depth == 0 {
        out.put("..");
        return;
    }
    match value {
        Value::Plain(id) => show_expr(tree, *id, depth, out),
        Value::Braces { from: _, values } => {
            out.put("{");
            show_values(tree, values.as_slice(), depth - 1, out);
            out.put(" }");
        }
    }
}

/// The values, each with a space before it.
#[cycle(value)]
fn show_values(tree: &Tree, values: &[Value], depth: u8, out: &mut Output)
    requires { AreValues tree.now values.now }
{
    for value in values {
        out.put(" ");
        show_value(tree, value, depth, out);
    }
}
