//! What the values of globals mention.

ghost use Rattle.std.specs.Option.{option_map};
ghost use Rattle.c_types_program.specs.Declarations.{initial_in, initials_in, known_in};
ghost use Rattle.cut_graph_rules.specs.Sources.{given_mentions, initial_mentions, initials_mentions, known_mentions};
ghost use Rattle.cut_graph_mentions.specs.Growing.{IsAdded};

use crate::found::Found;
use c_types_program::{Initial, Known};
use cut_graph_rules::Mention;

fn known(found: &mut Found, known: Known)
    ensures { IsAdded found.old (known_mentions (known_in known)) found.new }
{
    match known {
        Known::Number(_) | Known::AddressOfText(_) | Known::AddressOfGlobal(_) => {}
        Known::AddressOfFunction { number, .. } => found.put(Mention::Function(number)),
    }
}

#[cycle(initials)]
fn initial(found: &mut Found, value: &Initial)
    ensures { IsAdded found.old (initial_mentions (initial_in value.now)) found.new }
{
    match value {
        Initial::Scalar(what) => known(found, *what),
        Initial::Bytes(_) => {}
        Initial::Listed(inner) => initials(found, inner),
    }
}

// Values of elements or members, one after another.
#[cycle(initials)]
fn initials(found: &mut Found, values: &[Initial])
    ensures { IsAdded found.old (initials_mentions (initials_in values.now)) found.new }
{
    for i in 0..values.len() {
        initial(found, &values[i]);
    }
}

/// Adds what the value of a global mentions, where it has one.
pub(crate) fn given(found: &mut Found, value: &Option<Initial>)
    ensures { IsAdded found.old (given_mentions (option_map initial_in value.now)) found.new }
{
    match value {
        None => {}
        Some(value) => initial(found, value),
    }
}
