//! Some numbers of one page.

ghost use Rattle.std.specs.Prelude.{◌≡◌, ℕ, ◌+◌, ◌/◌, ◌%◌, ◌<◌, ◌≤◌, ◌&&◌, nat_le, nat_lt, if◌then◌else◌, slice_index, length, IsTrue};

/// Whether no number from the first place to before the last is above the bound.
pub fn are_at_most(values: &[u32], from: usize, to: usize, bound: u32) -> bool
    requires order { from ≤ to }
    requires within { to ≤ length values.now }
    ensures { IsTrue result → (k : ℕ) → from ≤ k → k < to → slice_index values.now k ≤ bound }
{
    for k in from..to {
        if values[k] > bound {
            return false;
        }
    }
    true
}

/// The same of a few cells, of which none lies past the eight in a row that the first is one of, where four cells in a row have
/// one number.
#[inline(always)]
pub fn are_few_words_at_most(values: &[u32; 64], from: usize, len: usize, bound: u32) -> bool
    requires some { 1 ≤ len }
    requires few { from % 8 + len ≤ 8 }
    requires within { from < 256 }
    ensures { IsTrue result → (k : ℕ) → from ≤ k → k < from + len → slice_index values.now (k / 4) ≤ bound }
{
    values[from / 4] <= bound && values[(from + len - 1) / 4] <= bound
}

/// Whether each number from the first place to before the last is this one.
#[inline(always)]
pub fn are_all(values: &[u32; 256], from: usize, to: usize, value: u32) -> bool
    requires order { from ≤ to }
    requires within { to ≤ 256 }
    ensures { IsTrue result → (k : ℕ) → from ≤ k → k < to → slice_index values.now k ≡ value }
{
    match to - from {
        4 => are_four(values, from, value),
        8 => are_four(values, from, value) & are_four(values, from + 4, value),
        _ => are_many(values, from, to, value),
    }
}

/// The same of a few numbers, of which most are one.
#[inline(always)]
pub fn are_few(values: &[u32; 256], from: usize, len: usize, value: u32) -> bool
    requires some { 1 ≤ len }
    requires within { from + len ≤ 256 }
    ensures { IsTrue result → (k : ℕ) → from ≤ k → k < from + len → slice_index values.now k ≡ value }
{
    values[from] == value && (len == 1 || are_all(values, from, from + len, value))
}

// The same of four numbers, without a branch for each.
#[inline(always)]
fn are_four(values: &[u32; 256], from: usize, value: u32) -> bool
    requires { from + 4 ≤ 256 }
    ensures { IsTrue result → (k : ℕ) → from ≤ k → k < from + 4 → slice_index values.now k ≡ value }
{
    (values[from] == value)
        & (values[from + 1] == value)
        & (values[from + 2] == value)
        & (values[from + 3] == value)
}

/// Whether each cell from the first to before the last has this number, where four cells in a row have one.
#[inline(always)]
pub fn are_words(values: &[u32; 64], from: usize, to: usize, value: u32) -> bool
    requires order { from < to }
    requires within { to ≤ 256 }
    ensures { IsTrue result → (k : ℕ) → from ≤ k → k < to → slice_index values.now (k / 4) ≡ value }
{
    let first = from / 4;
    let last = (to - 1) / 4;
    if values[first] != value || values[last] != value {
        return false;
    }
    last - first < 2 || are_many(values, first + 1, last, value)
}

/// The same of a few cells, of which none lies past the eight in a row that the first is one of.
#[inline(always)]
pub fn are_few_words(values: &[u32; 64], from: usize, len: usize, value: u32) -> bool
    requires some { 1 ≤ len }
    requires few { from % 8 + len ≤ 8 }
    requires within { from < 256 }
    ensures { IsTrue result → (k : ℕ) → from ≤ k → k < from + len → slice_index values.now (k / 4) ≡ value }
{
    values[from / 4] == value && values[(from + len - 1) / 4] == value
}

// The same of any count.
#[inline(never)]
fn are_many(values: &[u32], from: usize, to: usize, value: u32) -> bool
    requires order { from ≤ to }
    requires within { to ≤ length values.now }
    ensures { IsTrue result → (k : ℕ) → from ≤ k → k < to → slice_index values.now k ≡ value }
{
    for k in from..to {
        if values[k] != value {
            return false;
        }
    }
    true
}

/// Puts a number at each place from the first to before the last.
pub fn fill(values: &mut [u32], from: usize, to: usize, value: u32)
    requires order { from ≤ to }
    requires within { to ≤ length values.old }
    ensures { (k : ℕ) → k < length values.old →
        slice_index values.new k ≡ (if nat_le from k && nat_lt k to then value
        else slice_index values.old k) }
{
    for k in from..to {
        values[k] = value;
    }
}

/// The same of one place, or of two.
#[inline(always)]
pub fn fill_two(values: &mut [u32], from: usize, to: usize, value: u32)
    requires order { from < to }
    requires few { to ≤ from + 2 }
    requires within { to ≤ length values.old }
    ensures { (k : ℕ) → k < length values.old →
        slice_index values.new k ≡ (if nat_le from k && nat_lt k to then value
        else slice_index values.old k) }
{
    values[from] = value;
    values[to - 1] = value;
}

/// The numbers of cells of which four in a row have one.
pub fn spread(words: &[u32; 64]) -> [u32; 256]
    ensures { (k : ℕ) → k < 256 → slice_index result k ≡ slice_index words.now (k / 4) }
{
    let mut values = [0; 256];
    for k in 0..256 {
        values[k] = words[k / 4];
    }
    values
}
