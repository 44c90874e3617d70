//! Numbers that stand in bytes.

ghost use Rattle.std.specs.Prelude.{◌≡◌, ◌^◌, ◌<◌, ◌≤◌, length};
ghost use Rattle.marks.specs.Ranges.{number_of_bytes};

/// The number that stands in the bytes, the lowest first.
pub fn number_of(bytes: &[u8]) -> u64
    requires { length bytes.now ≤ 8 }
    ensures number { result ≡ number_of_bytes bytes.now }
    ensures below { result < 256 ^ length bytes.now }
{
    match bytes {
        [] => 0,
        [low, high @ ..] => {
            let above = 256 * number_of(high);
            u64::from(*low) + above
        }
    }
}
