//! The calls and callbacks of a thread that are open.

ghost use Rattle.std.specs.Prelude.{◌≡◌, ◌==◌, [], ◌∷◌, length, drop, OnOk};
ghost use Rattle.call_inspector.specs.Open.{open_after, innermost};

use run_events::Event;
use std::alloc::{AllocError, Global};
use std::marker::Model;

/// The functions of the calls and callbacks that are open after some events of a thread. Contracts see them with the
/// innermost first.
#[derive(Drop)]
pub struct Crossings {
    // The innermost last.
    funcs: Vec<u16>,
}

impl Model for Crossings {
    ghost use Rattle.std.specs.Prelude.{ℕ, List, reverse};

    ghost Value = { List ℕ };

    ghost view = { λ c. reverse c.funcs.items };
}

impl Crossings {
    /// None is open.
    pub fn new(alloc: Global) -> Crossings
        ensures { result ≡ [] }
    {
        Crossings {
            funcs: Vec::new(alloc),
        }
    }

    /// None is open any more.
    pub fn clear(&mut self)
        ensures { self.new ≡ [] }
    {
        self.funcs.clear();
    }

    /// Whether none is open.
    pub fn is_empty(&self) -> bool
        ensures { result ≡ (length self.now == 0) }
    {
        self.funcs.is_empty()
    }

    /// The function of the innermost one: that which a return closes.
    pub fn innermost(&self) -> Option<u16>
        ensures { result ≡ innermost self.now }
    {
        self.funcs.last().copied()
    }

    /// One more is open.
    #[inline]
    fn enter(&mut self, func: u16) -> Result<(), AllocError>
        ensures { OnOk result (self.new ≡ func ∷ self.old) }
    {
        self.funcs.push(func)?;
        Ok(())
    }

    /// The innermost one has returned.
    #[inline]
    fn leave(&mut self)
        ensures { self.new ≡ drop 1 self.old }
    {
        let _ = self.funcs.pop();
    }

    /// Goes past one more event of the thread.
    #[inline(always)]
    pub fn pass(&mut self, event: &Event) -> Result<(), AllocError>
        ensures { OnOk result (self.new ≡ open_after self.old event.now) }
    {
        match event {
            Event::Call { func, .. } | Event::Up { func, .. } => self.enter(*func),
            Event::Ret { .. } | Event::UpRet { .. } => {
                self.leave();
                Ok(())
            }
            Event::Alloc { .. } | Event::Free { .. } | Event::Stop { .. } => Ok(()),
        }
    }
}
