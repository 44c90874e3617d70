//! Which functions may run where.

ghost use Rattle.std.specs.Prelude.{◌≡◌};
ghost use Rattle.isolation_check_rows.specs.Rows.{counts, flag};

/// Flags of functions by number, builtins too: those that may run above the cut, those that may run below it, and those of
/// the interface. A function past the end of a list has no flag.
#[derive(Clone, Copy)]
pub struct Sides<'a> {
    pub above: &'a [bool],
    pub below: &'a [bool],
    pub faces: &'a [bool],
}

/// Which functions count: those that may run above the cut, below it, or on either side.
#[derive(Clone, Copy)]
pub enum Counts {
    Above,
    Below,
    Either,
}

fn flag(flags: &[bool], function: u16) -> bool
    ensures { result ≡ flag flags.now function }
{
    flags.get(usize::from(function)).copied().unwrap_or(false)
}

impl<'a> Sides<'a> {
    /// Whether a function counts.
    pub fn counts(self, which: Counts, function: u16) -> bool
        ensures { result ≡ counts self.entry.above.now self.entry.below.now which function }
    {
        match which {
            Counts::Above => flag(self.above, function),
            Counts::Below => flag(self.below, function),
            Counts::Either => flag(self.above, function) || flag(self.below, function),
        }
    }

    /// Whether a function is in the interface.
    pub fn is_face(self, function: u16) -> bool
        ensures { result ≡ flag self.entry.faces.now function }
    {
        flag(self.faces, function)
    }
}
