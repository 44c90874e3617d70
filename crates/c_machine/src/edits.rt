// What becomes of the values.

ghost use Rattle.std.specs.Prelude.{◌≡◌, ◌<◌, ◌≤◌, length};
ghost use Rattle.c_machine_stack.specs.Stacks.{held, room_of};
ghost use Rattle.c_machine.specs.Acts.{Hears, edited, hearing_takes, takes};
ghost use Rattle.c_machine.specs.declared.outcome.Edit.TheVariants.{Give};
ghost use Rattle.c_machine.specs.Wants.{told};

use crate::operators::convert;
use crate::outcome::{Edit, Heard};
use crate::wants::Answer;
use c_machine_stack::Stack;

// Changes the topmost values.
#[inline(always)]
pub(crate) fn apply(edit: Edit, values: &mut Stack<u64>)
    requires enough { takes edit ≤ length (held values.old) }
    requires room { length (held values.old) < room_of values.old }
    ensures edited { held values.new ≡ edited edit (held values.old) }
    ensures room { room_of values.new ≡ room_of values.old }
{
    match edit {
        Edit::Keep => {}
        Edit::Push(value) => values.push(value),
        Edit::Drop => values.drop_one(),
        Edit::Replace(value) => values.replace_top(value),
        Edit::Join(value) => values.replace_two(value),
        Edit::Give(n, value) => give(n, value, values),
    }
}

// Puts one value in the place of so many.
fn give(n: u8, value: u64, values: &mut Stack<u64>)
    requires room { length (held values.old) < room_of values.old }
    ensures given { held values.new ≡ edited (Give n value) (held values.old) }
    ensures room { room_of values.new ≡ room_of values.old }
{
    values.drop_top(n as usize);
    values.push(value);
}

// What the answer to a mark does: the instruction that it leads to; `None` where the activation ends, and nothing changes.
#[inline(always)]
pub(crate) fn hear(heard: Heard, values: &mut Stack<u64>, answer: Answer) -> Option<usize>
    requires enough { hearing_takes heard ≤ length (held values.old) }
    requires room { length (held values.old) < room_of values.old }
    ensures hears { Hears heard (held values.old) (held values.new) (told answer) result }
    ensures room { room_of values.new ≡ room_of values.old }
{
    match heard {
        Heard::Goes(edit, at) => {
            apply(edit, values);
            Some(at)
        }
        Heard::Loads(kind, at) => {
            let Answer::Value(value) = answer else {
                return None;
            };
            values.replace_top(convert(kind, value));
            Some(at)
        }
        Heard::LoadsAbove(kind, at) => {
            let Answer::Value(value) = answer else {
                return None;
            };
            values.push(convert(kind, value));
            Some(at)
        }
        Heard::Takes(n, at) => {
            let Answer::Value(value) = answer else {
                return None;
            };
            give(n, value, values);
            Some(at)
        }
        Heard::Ends | Heard::Nothing => None,
    }
}
