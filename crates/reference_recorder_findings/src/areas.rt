//! Checks of where a range lies.

ghost use Rattle.replay_runs.specs.Checks.{Done, constant_check, other_space_check};
ghost use Rattle.reference_recorder_findings.specs.Findings.{IsFound};

use crate::finding::Finding;
use marks::{BreachKind, FaultKind, Range};
use memory_map::{CONSTANTS, SYSTEM_MEMORY};

/// What is found where code above the cut reads or writes the range: it touches no system memory.
pub fn other_space(range: Range) -> Option<Finding>
    ensures { IsFound (other_space_check range Done) result }
{
    match range.first_common(SYSTEM_MEMORY) {
        Some(address) => Some(Finding::Breach {
            kind: BreachKind::OtherSpace,
            address,
            other: None,
        }),
        None => None,
    }
}

/// What is found where code reads or writes the range: it writes no constant.
pub fn read_only(write: bool, range: Range) -> Option<Finding>
    ensures { IsFound (constant_check write range Done) result }
{
    if !write {
        return None;
    }
    match range.first_common(CONSTANTS) {
        Some(_) => Some(Finding::Fault(FaultKind::ReadOnly)),
        None => None,
    }
}
