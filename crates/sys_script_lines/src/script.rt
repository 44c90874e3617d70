//! Whole files.

ghost use Rattle.std.specs.Prelude.{◌≡◌, ◌≤◌, length};
ghost use Rattle.sys_script_lines.specs.Externals.{named_in};
ghost use Rattle.sys_script_lines.specs.Scripts.{IsRead, script_of};

use crate::cut::cut_far;
use crate::error::ScriptError;
use crate::externals::Externals;
use crate::finder::Finder;
use crate::said::Said;
use std::alloc::Global;
use system_side::SysFile;

/// The system file whose bytes these are, where these functions have no body.
///
/// `Line` is the number of the first line, from 1, that says nothing that it may say there; bytes after the last line end
/// are such a line.
pub fn read_lines<'a>(
    alloc: Global,
    bytes: &'a [u8],
    externals: &'a Externals,
) -> Result<SysFile, ScriptError>
    requires { length bytes.now ≤ 1048576 }
    ensures { IsRead (script_of (named_in externals.now) bytes.now) result }
{
    let mut said = Said::new(alloc, bytes);
    let mut finder = Finder::new(externals);
    let mut rest = bytes;
    let mut number = 1;
    while let Some((line, after)) = cut_far(rest, b'\n') {
        // A file may have very many of them.
        if line.is_empty() {
            rest = after;
            number += 1;
            continue;
        }
        match said.hear(alloc, &mut finder, line) {
            Ok(()) => {
                rest = after;
                number += 1;
            }
            Err(wrong) => return Err(wrong.at(number)),
        }
    }
    if rest.is_empty() {
        Ok(said.finish(alloc)?)
    } else {
        Err(ScriptError::Line(number))
    }
}
