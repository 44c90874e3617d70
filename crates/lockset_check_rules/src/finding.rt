//! What breaks the discipline.

ghost use Rattle.std.specs.Prelude.{◌≡◌};
ghost use Rattle.std.proofs.Common.{rules};
ghost use Rattle.std.specs.Cmp.{partial_order_from_own_ties};
ghost use Rattle.std.specs.Cmp.Rules.{comparing};
ghost use Rattle.std.specs.Ordering.{as_partial_cmp};
ghost use Rattle.lockset_check_rules.specs.Comparison.{line_cmp, line_eq};
ghost use Rattle.lockset_check_rules.specs.Order.{offset_of};
ghost use Rattle.lockset_check_rules.specs.Comparison.{name_in, rank_of};

use c_lexer::Text;
use std::cmp::Ordering;

/// A place of a source that breaks the discipline of its guards, by its offset in bytes, with the name that stands there.
#[derive(Drop)]
pub enum LockFinding {
    /// A guarded global is touched, or a function called, where a mutex isn't held that should be.
    Unheld(u32, Text),
    /// A guarded global or a function whose callers hold a mutex is named so that a pointer to it is made.
    Address(u32, Text),
    /// `r2_lock` or `r2_unlock` has an argument that is no integer constant expression.
    NotConstant(u32),
    /// `r2_unlock` of a mutex that isn't held.
    UnlockUnheld(u32),
    /// A loop that doesn't keep the mutexes that are held at its start.
    LoopLocks(u32),
    /// A function that doesn't keep the mutexes that are held at its start.
    ReturnLocks(u32),
}

impl LockFinding {
    /// Its offset.
    pub fn offset(&self) -> u32
        ensures { result ≡ offset_of self.now }
    {
        match self {
            LockFinding::Unheld(from, _)
            | LockFinding::Address(from, _)
            | LockFinding::NotConstant(from)
            | LockFinding::UnlockUnheld(from)
            | LockFinding::LoopLocks(from)
            | LockFinding::ReturnLocks(from) => *from,
        }
    }

    // The place of its word among all words of lines.
    fn rank(&self) -> u8
        ensures { result ≡ rank_of self.now }
    {
        match self {
            LockFinding::Address(..) => 0,
            LockFinding::LoopLocks(_) => 1,
            LockFinding::NotConstant(_) => 2,
            LockFinding::ReturnLocks(_) => 3,
            LockFinding::Unheld(..) => 4,
            LockFinding::UnlockUnheld(_) => 5,
        }
    }

    // The name that ends its line; none where the word does.
    fn name(&self) -> &[u8]
        ensures { result.now ≡ name_in self.now }
    {
        match self {
            LockFinding::Unheld(_, name) | LockFinding::Address(_, name) => name.as_slice(),
            _ => &[],
        }
    }
}

impl PartialEq for LockFinding {
    ghost eq = { line_eq };

    ghost laws = { Prim.search (comparing, rules) };

    fn eq(&self, other: &LockFinding) -> bool {
        self.offset() == other.offset()
            && (self.rank() == other.rank() && self.name() == other.name())
    }
}

impl Eq for LockFinding {
    ghost laws = { Prim.search (comparing, rules) };
}

/// The order of lines: by offset, and then by text.
impl Ord for LockFinding {
    ghost cmp = { line_cmp };

    ghost total = { Prim.search (comparing, rules) };

    ghost matches_partial_cmp = { Prim.search (comparing, rules) };

    ghost matches_eq = { Prim.search (comparing, rules) };

    fn cmp(&self, other: &LockFinding) -> Ordering {
        let text = self
            .rank()
            .cmp(&other.rank())
            .then(self.name().cmp(other.name()));
        self.offset().cmp(&other.offset()).then(text)
    }
}

impl PartialOrd for LockFinding {
    ghost partial_cmp = { as_partial_cmp line_cmp };

    ghost laws = { partial_order_from_own_ties (Prim.search (comparing, rules)) (Prim.search (comparing, rules)) };

    fn partial_cmp(&self, other: &LockFinding) -> Option<Ordering> {
        Some(self.cmp(other))
    }
}
