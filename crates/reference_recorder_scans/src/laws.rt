//! What the checks of a step find is what scans find, as a contract of a function that does nothing.

ghost use Rattle.std.specs.Prelude.{◌≡◌, ◌≢◌, ◌↔◌, ◌⊎◌, ℕ, ◌+◌, ◌^◌, ◌<◌, ◌≤◌, Bool, true, List, Option as Maybe, None as Nothing, IsSome};
ghost use Rattle.marks.specs.Marks.{Mark};
ghost use Rattle.marks.specs.declared.range.Range.{Range};
ghost use Rattle.marks.specs.Ranges.{IsFirstIn, any_range, covers};
ghost use Rattle.marks.specs.Bytes.{Dead, IsHeld};
ghost use Rattle.replay_runs.specs.Runs.{byte};
ghost use Rattle.whole_runs.specs.World.{World, begin};
ghost use Rattle.whole_runs.specs.Sides.{seen};
ghost use Rattle.whole_runs.specs.Memory.{real};
ghost use Rattle.whole_runs.specs.Below.{IsForbidden};
ghost use Rattle.whole_runs.specs.Tests.{is_changed};
ghost use Rattle.reference_recorder_scans.specs.Found.{IsLeastBad, IsLow};

/// Checks speak of all addresses that a range would cover, scans of those below 2^64. Where no byte from 2^31 on lives, both come to the
/// same: of the checks of live bytes, of bytes pending where the range lives, of those that code below the cut may touch and that are
/// there for it, and of those of a region that were changed.
pub fn first_bytes_are_least()
    ensures dead { (w : World) (p : List Mark) (r : Range) (first : Maybe ℕ) → r.addr < 2 ^ 64 → IsLow w p →
        IsFirstIn r (λ x. (byte (begin w) x (seen p)).cell ≡ Dead) first →
        IsLeastBad (λ x. (covers r x ≡ true) × ((byte (begin w) x (seen p)).cell ≡ Dead)) first }
    ensures pending { (w : World) (p : List Mark) (more : List Range) (r : Range) (first : Maybe ℕ) →
        IsLow w p → ((x : ℕ) → covers r x ≡ true → (byte (begin w) x (seen p)).cell ≢ Dead) →
        IsFirstIn r (λ x. IsHeld (byte (begin w) x (seen p)).cell ⊎ (any_range more x ≡ true)) first →
        IsLeastBad (λ x. (covers r x ≡ true) ×
        (IsHeld (byte (begin w) x (seen p)).cell ⊎ (any_range more x ≡ true))) first }
    ensures forbidden { (w : World) (p : List Mark) (t : ℕ) (write : Bool) (r : Range) (first : Maybe ℕ) →
        IsFirstIn r (IsForbidden w p t write) first →
        IsLeastBad (λ x. (covers r x ≡ true) × IsForbidden w p t write x) first }
    ensures lost { (w : World) (p : List Mark) (r : Range) (first : Maybe ℕ) → r.addr < 2 ^ 64 → IsLow w p →
        IsFirstIn r (λ x. real w p x ≡ Nothing) first →
        IsLeastBad (λ x. (covers r x ≡ true) × (real w p x ≡ Nothing)) first }
    ensures changed { (w : World) (p : List Mark) (memory : ℕ → Maybe ℕ) (r : Range) (used : ℕ)
        (first : Maybe ℕ) → IsLow w p → IsFirstIn r (λ x. (r.addr + used ≤ x) ×
        (is_changed (byte (begin w) x (seen p)).cell (memory x) ≡ true)) first →
        IsSome first ↔ ((y : ℕ) × (covers r y ≡ true) × (r.addr + used ≤ y) ×
        (is_changed (byte (begin w) y (seen p)).cell (memory y) ≡ true)) }
{}
