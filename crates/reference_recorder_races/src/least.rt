//! The lesser of two bytes.

ghost use Rattle.std.specs.Prelude.{◌||◌, ℕ, Bool};
ghost use Rattle.reference_recorder_races.specs.Least.{IsLeastAt};

/// The lesser of a byte and one that may be there.
fn least_with(a: u64, b: Option<u64>) -> u64
    ensures { (f g : ℕ → Bool) → IsLeastAt f (Some a) → IsLeastAt g b →
        IsLeastAt (λ x. f x || g x) (Some result) }
{
    match b {
        None => a,
        Some(other) => a.min(other),
    }
}

/// The lesser of two bytes that may be there.
pub fn least(a: Option<u64>, b: Option<u64>) -> Option<u64>
    ensures { (f g : ℕ → Bool) → IsLeastAt f a → IsLeastAt g b →
        IsLeastAt (λ x. f x || g x) result }
{
    match a {
        None => b,
        Some(first) => Some(least_with(first, b)),
    }
}
