//! The call.

ghost use Rattle.std.specs.Prelude.{◌≡◌, ◌≤◌, length};
ghost use Rattle.sys_script_lines.specs.Scripts.{IsRead, script_of};
ghost use Rattle.sys_script.specs.Externals.{external_in};

use crate::externals::externals_of;
use annot_reader::Iface;
use c_types_program::TypedProgram;
use std::alloc::Global;
use sys_script_lines::{ScriptError, read_lines};
use system_side::SysFile;

/// The system file whose bytes these are, for a program and what annotations say of its functions.
///
/// `Line` is the number of the first line, from 1, that says nothing that it may say there. `Memory` where there is no memory for what
/// the file says.
pub fn read(
    alloc: Global,
    bytes: &[u8],
    program: &TypedProgram,
    iface: &Iface,
) -> Result<SysFile, ScriptError>
    requires short { length bytes.now ≤ 1048576 }
    requires few { length program.now.functions ≤ 1000 }
    ensures { IsRead (script_of (external_in program.now iface.now) bytes.now) result }
{
    let externals = externals_of(alloc, program, iface)?;
    read_lines(alloc, bytes, &externals)
}
