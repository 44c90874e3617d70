//! The answers of a system file.

ghost use Rattle.std.specs.Prelude.{◌≡◌, ◌==◌, filter, slice_get};
ghost use Rattle.system_side.specs.declared.file.Scripted.{Scripted as Answered};
ghost use Rattle.reference_recorder_given.specs.Given.{some_answer};

use system_side::{Answer, SysFile};

/// The answer of the function with this place among those of the function, from 0, in the order of the file.
pub fn answer_of(file: &SysFile, func: u16, place: usize) -> Option<Answer<'_>>
    ensures { some_answer result ≡
        slice_get (filter (λ (a : Answered). a.func == func) file.now.answers) place }
{
    let mut left = place;
    for at in 0..file.answers.len() {
        let answer = file.answers.get(at);
        if answer.func == func {
            if left == 0 {
                return Some(answer);
            }
            left -= 1;
        }
    }
    None
}
