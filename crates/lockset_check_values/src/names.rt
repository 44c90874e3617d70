//! What is found at names.

ghost use Rattle.std.specs.Prelude.{◌≡◌, IfOk, OnOk, Some};
ghost use Rattle.lockset_check_rules.specs.Guards.{address as address_found, called_unheld, function_address as function_address_found, function_name, global_name, unheld};
ghost use Rattle.lockset_check_rules.specs.Mutexes.{are_held};
ghost use Rattle.lockset_check_rules.specs.Values.{touched};
ghost use Rattle.c_types_nodes.specs.Tables.{IsObjectAt, object_at};
ghost use Rattle.lockset_check_values.specs.Setting.{guarded};
ghost use Rattle.lockset_check_values.specs.Walks.{IsWalkOf, finding};

use crate::walk::Walk;
use crate::walker::Walker;
use c_builtins::FIRST_SOURCE_FUNCTION;
use c_lexer::Text;
use c_types_nodes::NodeId;
use lockset_check_rules::{LockFinding, Mention};
use std::alloc::AllocError;

impl Walker<'_, '_> {
    // The name of a global; of none, nothing.
    #[tactic(auto, using(crate::proofs::ByNumber::global_at))]
    fn bytes_of_global(&self, place: u32) -> &[u8]
        ensures { result.now ≡ global_name (guarded self.now) place }
    {
        match self.program().globals().get(place as usize) {
            Some(global) => global.name.as_slice(),
            None => &[],
        }
    }

    fn global_name(&self, place: u32) -> Result<Text, AllocError>
        ensures { IfOk result (λ name. name ≡ global_name (guarded self.now) place) }
    {
        Text::from_slice(self.alloc(), self.bytes_of_global(place))
    }

    // The name of a function; of none, nothing.
    #[tactic(auto, using(crate::proofs::ByNumber::function_at))]
    fn bytes_of_function(&self, number: u32) -> &[u8]
        ensures { result.now ≡ function_name (guarded self.now) number }
    {
        let place = number.saturating_sub(u32::from(FIRST_SOURCE_FUNCTION));
        match self.program().functions().get(place as usize) {
            Some(function) => function.name.as_slice(),
            None => &[],
        }
    }

    fn function_name(&self, number: u32) -> Result<Text, AllocError>
        ensures { IfOk result (λ name. name ≡ function_name (guarded self.now) number) }
    {
        Text::from_slice(self.alloc(), self.bytes_of_function(number))
    }

    /// A global is named, loaded or stored to.
    pub(crate) fn unheld(&self, walk: &mut Walk, mention: Mention) -> Result<(), AllocError>
        ensures { OnOk result (walk.new ≡ finding (unheld (guarded self.now) mention
            walk.old.sets.held) walk.old) }
    {
        match self.guards().guard(mention.place as usize) {
            Some(mutex) => {
                if walk.has(i128::from(mutex)) {
                    return Ok(());
                }
                let name = self.global_name(mention.place)?;
                walk.find(LockFinding::Unheld(mention.from, name))
            }
            None => Ok(()),
        }
    }

    /// An object is loaded or stored to.
    pub(crate) fn touch(&self, walk: &mut Walk, object: NodeId) -> Result<(), AllocError>
        requires { IsObjectAt self.now.program.table object }
        ensures { OnOk result (walk.new ≡ finding (touched (guarded self.now)
            (object_at self.now.program.table object) walk.old.sets.held) walk.old) }
    {
        match self.root(object) {
            Some(mention) => self.unheld(walk, mention),
            None => Ok(()),
        }
    }

    // A pointer is made to this global.
    fn address_of_global(&self, walk: &mut Walk, mention: Mention) -> Result<(), AllocError>
        ensures { OnOk result (walk.new ≡
            finding (address_found (guarded self.now) (Some mention)) walk.old) }
    {
        match self.guards().guard(mention.place as usize) {
            Some(_) => {
                let name = self.global_name(mention.place)?;
                walk.find(LockFinding::Address(mention.from, name))
            }
            None => Ok(()),
        }
    }

    /// A pointer is made to a global, if it is one.
    pub(crate) fn address(
        &self,
        walk: &mut Walk,
        mention: Option<Mention>,
    ) -> Result<(), AllocError>
        ensures { OnOk result (walk.new ≡ finding (address_found (guarded self.now) mention) walk.old) }
    {
        match mention {
            Some(mention) => self.address_of_global(walk, mention),
            None => Ok(()),
        }
    }

    /// A function is named other than as called.
    pub fn function_address(
        &self,
        walk: &mut Walk,
        from: u32,
        number: u32,
    ) -> Result<(), AllocError>
        ensures { OnOk result (walk.new ≡ finding (function_address_found (guarded self.now) from number)
            walk.old) }
    {
        match self.guards().holds(number as usize) {
            [] => Ok(()),
            _ => {
                let name = self.function_name(number)?;
                walk.find(LockFinding::Address(from, name))
            }
        }
    }

    // Whether all mutexes are held that the callers of a function hold.
    #[tactic(auto, using(crate::proofs::ByNumber::none_needed, crate::proofs::ByNumber::needed))]
    fn are_held(&self, walk: &mut Walk, number: u32) -> bool
        requires { IsWalkOf self.now.sayings walk.old }
        ensures held { result ≡ are_held ((guarded self.now).holds number) walk.old.sets.held }
        ensures same { walk.new ≡ walk.old }
    {
        let first = usize::from(FIRST_SOURCE_FUNCTION);
        let number = number as usize;
        if number < first {
            return true;
        }
        walk.has_all(number - first)
    }

    /// A function is called by its name.
    pub(crate) fn called_function(
        &self,
        walk: &mut Walk,
        from: u32,
        number: u32,
    ) -> Result<(), AllocError>
        requires walk { IsWalkOf self.now.sayings walk.old }
        ensures { OnOk result (walk.new ≡ finding (called_unheld (guarded self.now) from number
            walk.old.sets.held) walk.old) }
    {
        if self.are_held(walk, number) {
            return Ok(());
        }
        let name = self.function_name(number)?;
        walk.find(LockFinding::Unheld(from, name))
    }
}
