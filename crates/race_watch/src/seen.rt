//! The accesses that were taken.

ghost use Rattle.std.specs.Prelude.{◌≡◌, IfSome, IfErr, OnOk, OnErr};
ghost use Rattle.race_watch.specs.Stands.{IsAlikeAt, Puts};

use crate::error::WatchError;
use memory_map::Range;

/// An access that was taken: its thread, how many events the thread had made, the bytes, and whether it writes them.
#[derive(Clone, Copy, Debug, PartialEq, Eq)]
pub struct Seen {
    pub thread: u8,
    pub place: u32,
    pub range: Range,
    pub write: bool,
}

/// Where an access of the same bytes by the same thread, in the same way, stands.
fn alike(seen: &[Seen], one: Seen) -> Option<usize>
    ensures { IfSome result (λ i. IsAlikeAt seen.now i one) }
{
    for i in 0..seen.len() {
        let other = seen[i];
        if other.thread == one.thread && other.range == one.range && other.write == one.write {
            return Some(i);
        }
    }
    None
}

/// Takes one more access; it stands for one alike from now on.
pub fn take(seen: &mut Vec<Seen>, one: Seen) -> Result<(), WatchError>
    ensures puts { OnOk result (Puts seen.old.items seen.new.items one) }
    ensures unchanged { OnErr result (seen.new.items ≡ seen.old.items) }
    ensures memory { IfErr result (λ e. e ≡ WatchError.Memory) }
{
    if let Some(i) = alike(seen, one) {
        seen[i] = one;
        return Ok(());
    }
    match seen.push(one) {
        Ok(()) => Ok(()),
        Err(_) => Err(WatchError::Memory),
    }
}
