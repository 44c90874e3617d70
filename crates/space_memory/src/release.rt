// The tests of what a return gives back.
ghost use Rattle.std.specs.Prelude.{◌≡◌, ◌<◌, ◌≤◌, ◌+◌, ◌^◌, ◌↔◌, All, IsTrue, IsOk, IfErr, IfSome, MatchOption, Err, length, option_map, slice_get};
ghost use Rattle.space_memory_access.specs.declared.refusal.Refusal.{Refusal};
ghost use Rattle.space_memory.specs.Spaces.{IsWhole};
ghost use Rattle.space_memory.specs.Releases.{outs_of, committed_key, IsFilled, AllFilled, FirstUnfilled, AllReturned, HasKey, IsReleaseRefused};

use space_memory_access::{OpenCall, Refusal, Region, Regions};
use space_memory_bytes::LiveBytes;

/// The key of what is committed.
pub fn committed_key(commit: Option<(u64, u64)>) -> Option<u64>
    ensures { result ≡ committed_key commit }
{
    let (key, _) = commit?;
    Some(key)
}

/// Tests what a return of the call gives back: that the key which it commits, if it does, is in use, and that each region
/// which it held to write, and then the committed one, is filled up to its used size.
pub fn check_release(
    bytes: &LiveBytes,
    held: &Regions,
    call: OpenCall,
    used: &[u64],
    commit: Option<(u64, u64)>,
) -> Result<(), Refusal>
    requires whole { All IsWhole held.now.regions }
    requires sizes { length used.now ≡ length (outs_of call held.now.regions) }
    ensures released { IsOk result ↔ (HasKey held.now.regions commit ×
        AllReturned bytes.now held.now.regions call used.now commit) }
    ensures refused { (r : Refusal) → (result ≡ Err r) ↔ IsReleaseRefused bytes.now held.now.regions call
        used.now commit r }
{
    let Some((key, size)) = commit else {
        return match first_unfilled(bytes, held.as_slice(), call, used) {
            Some(addr) => Err(Refusal::Size { addr }),
            None => Ok(()),
        };
    };
    let Some(region) = held.prepared(key) else {
        return Err(Refusal::NoKey { addr: key });
    };
    if let Some(addr) = first_unfilled(bytes, held.as_slice(), call, used) {
        return Err(Refusal::Size { addr });
    }
    if !is_filled(bytes, region, size) {
        return Err(Refusal::Size {
            addr: region.range.addr,
        });
    }
    Ok(())
}

// The first byte of the first region that the call held to write and that isn't filled up to its used size.
fn first_unfilled(
    bytes: &LiveBytes,
    regions: &[Region],
    call: OpenCall,
    used: &[u64],
) -> Option<u64>
    requires whole { All IsWhole regions.now }
    requires sizes { length used.now ≡ length (outs_of call regions.now) }
    ensures { MatchOption result (AllFilled bytes.now (outs_of call regions.now) used.now)
        (FirstUnfilled bytes.now (outs_of call regions.now) used.now) }
{
    let mut next = 0;
    for region in regions {
        if region.holder.is_out_of(call) {
            if !is_filled(bytes, region, used[next]) {
                return Some(region.range.addr);
            }
            next += 1;
        }
    }
    None
}

/// The region at a place among those that the call holds to write, the oldest first.
pub fn out_at(regions: &[Region], call: OpenCall, place: usize) -> Option<&Region>
    requires whole { All IsWhole regions.now }
    ensures region { option_map (λ r. r.now) result ≡ slice_get (outs_of call regions.now) place }
    ensures len { IfSome result (λ r. length r.now.before ≡ r.now.range.len) }
    ensures ends { IfSome result (λ r. r.now.range.addr + r.now.range.len < 2 ^ 64) }
{
    let mut left = place;
    for region in regions {
        if region.holder.is_out_of(call) {
            if left == 0 {
                return Some(region);
            }
            left -= 1;
        }
    }
    None
}

/// Whether the used size is at most the region's, and the bytes past it are as they were when the region was held.
pub fn is_filled(bytes: &LiveBytes, region: &Region, used: u64) -> bool
    requires len { length region.now.before ≡ region.now.range.len }
    requires ends { region.now.range.addr + region.now.range.len < 2 ^ 64 }
    ensures { IsTrue result ↔ IsFilled bytes.now used region.now }
{
    let used = if region.range.addr == 0 { 0 } else { used };
    if used > region.range.len {
        return false;
    }
    let rest = &region.before.as_slice()[used as usize..];
    bytes.matches(region.range.addr + used, rest)
}
