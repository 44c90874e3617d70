//! What a recording is given.

use c_code::Placed;
use c_code_fused::FusedCode;
use stub_operations::StubSet;
use system_side::SysFile;

/// What a recording is given: the code of a program, the places of its objects, what is done at its calls, and a system file.
#[derive(Clone, Copy)]
pub struct Inputs<'a> {
    pub code: &'a FusedCode,
    pub placed: &'a Placed,
    pub stubs: &'a StubSet,
    pub file: &'a SysFile,
}
