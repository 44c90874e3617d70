//! The vertices of what may run where: the functions that run above the cut, by number, builtins too, then the globals that
//! are named there, by place, and then the same for below the cut.

ghost use Rattle.std.specs.Prelude.{◌≡◌, ◌+◌, ◌*◌, ◌≤◌, ◌^◌};
ghost use Rattle.std.specs.Option.{option_to_list};
ghost use Rattle.cut_graph_modes.specs.Edges.{first_of, function_target, global_target, side_of, target};

use crate::flags::is_flagged;
use cut_graph_rules::Mention;
use marks::Side;

/// What is named on one side: how many functions and globals there are, and whether names of globals are followed.
#[derive(Clone, Copy)]
pub(crate) struct Naming {
    pub(crate) functions: u32,
    pub(crate) globals: u32,
    pub(crate) side: Side,
    pub(crate) follows: bool,
}

// The side on which a function runs that is named on a side.
fn side_where_named(faces: &[bool], side: Side, number: u32) -> Side
    ensures { result ≡ side_of faces.now side number }
{
    match side {
        Side::System => Side::System,
        Side::Replay => {
            if is_flagged(faces, number as usize) {
                Side::System
            } else {
                Side::Replay
            }
        }
    }
}

fn first_vertex(naming: Naming, side: Side) -> u32
    requires { 2 * (naming.functions + naming.globals) ≤ 2 ^ 32 }
    ensures { result ≡ first_of naming.functions naming.globals side }
{
    match side {
        Side::Replay => 0,
        Side::System => naming.functions + naming.globals,
    }
}

fn function_vertex(naming: Naming, faces: &[bool], number: u32) -> Option<u32>
    requires { 2 * (naming.functions + naming.globals) ≤ 2 ^ 32 }
    ensures { option_to_list result ≡ function_target naming faces.now number }
{
    if number < naming.functions {
        let first = first_vertex(naming, side_where_named(faces, naming.side, number));
        Some(first + number)
    } else {
        None
    }
}

fn global_vertex(naming: Naming, place: u32) -> Option<u32>
    requires { 2 * (naming.functions + naming.globals) ≤ 2 ^ 32 }
    ensures { option_to_list result ≡ global_target naming place }
{
    if naming.follows && place < naming.globals {
        let first = first_vertex(naming, naming.side);
        Some(first + (naming.functions + place))
    } else {
        None
    }
}

/// The vertex that a mention leads to, if any.
pub(crate) fn vertex(naming: Naming, faces: &[bool], mention: Mention) -> Option<u32>
    requires { 2 * (naming.functions + naming.globals) ≤ 2 ^ 32 }
    ensures { option_to_list result ≡ target naming faces.now mention }
{
    match mention {
        Mention::Function(number) => function_vertex(naming, faces, number),
        Mention::Global(place) => global_vertex(naming, place),
        Mention::Written(_) => None,
    }
}
