//! Masks of 32 bits, one for each thread.

ghost use Rattle.std.specs.Prelude.{◌≡◌, ◌≢◌, ℕ, ◌<◌, ◌≤◌, IfSome, IfNone};
ghost use Rattle.std.specs.Int.{bit_at};

/// The mask with one more bit.
pub fn with_bit(mask: u32, at: u32) -> u32
    requires { at < 32 }
    ensures set { bit_at result at ≡ 1 }
    ensures others { (i : ℕ) → i ≢ at → bit_at result i ≡ bit_at mask i }
{
    mask | (1 << at)
}

/// The mask without a bit.
pub fn without_bit(mask: u32, at: u32) -> u32
    requires { at < 32 }
    ensures clear { bit_at result at ≡ 0 }
    ensures others { (i : ℕ) → i < 32 → i ≢ at → bit_at result i ≡ bit_at mask i }
{
    mask & !(1 << at)
}

/// The mask without the bits below a place.
pub fn bits_from(mask: u32, at: u32) -> u32
    ensures below { (i : ℕ) → i < at → i < 32 → bit_at result i ≡ 0 }
    ensures same { (i : ℕ) → at ≤ i → i < 32 → bit_at result i ≡ bit_at mask i }
{
    if at < 32 { mask & (u32::MAX << at) } else { 0 }
}

/// The place of the lowest bit.
pub fn lowest(mask: u32) -> Option<u8>
    ensures within { IfSome result (λ at. at < 32) }
    ensures set { IfSome result (λ at. bit_at mask at ≡ 1) }
    ensures below { IfSome result (λ at. (i : ℕ) → i < at → bit_at mask i ≡ 0) }
    ensures empty { IfNone result ((i : ℕ) → bit_at mask i ≡ 0) }
{
    if mask == 0 {
        None
    } else {
        Some(mask.trailing_zeros() as u8)
    }
}
