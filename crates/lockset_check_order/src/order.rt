//! The order of findings.

ghost use Rattle.std.specs.Prelude.{IfOk};
ghost use Rattle.lockset_check_rules.specs.Order.{AreSorted};

use lockset_check_rules::LockFinding;
use std::alloc::AllocError;

/// The same findings, each once, by offset and then by the text of their lines. `AllocError` where there is no memory for it.
pub fn in_order(found: Vec<LockFinding>) -> Result<Vec<LockFinding>, AllocError>
    ensures { IfOk result (λ sorted. AreSorted found.items sorted.items) }
{
    let mut found = found;
    found.sort()?;
    found.dedup();
    Ok(found)
}
