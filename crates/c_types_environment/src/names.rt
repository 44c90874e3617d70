//! What names are in expressions (C11 6.5.1).

ghost use Rattle.std.specs.Prelude.{◌≡◌, ℕ, length, IfOk};
ghost use Rattle.c_types_table.specs.Tables.{types_of};
ghost use Rattle.c_syntax.specs.Syntax.{Name};
ghost use Rattle.c_types_rules.specs.Environment.{builtin_of as builtin_of_name, is_reserved as is_reserved_name};
ghost use Rattle.c_types_rules.specs.Expressions.{builtin_in, named as named_of};
ghost use Rattle.c_types_operators.specs.Answers.{Agrees, StandsAt};
ghost use Rattle.c_types_environment.specs.Reading.{IsMeaningBelow, meaning_by};
ghost use Rattle.c_types_environment.specs.States.{KeepsAll};
ghost use Rattle.c_types_environment.specs.Nodes.{typed_by, unknown_name_error};

use crate::environment::Environment;
use crate::meaning::Meaning;
use c_builtins::Builtin;
use c_types_nodes::{Node, NodeId};
use c_types_operators::TypeError;
use std::alloc::AllocError;

/// Whether a source may not declare the name, since it begins with `r2_`.
pub fn is_reserved(name: &[u8]) -> bool
    ensures { result ≡ is_reserved_name name.now }
{
    c_builtins::is_reserved(name)
}

/// The builtin of this name; `None` where no builtin has it.
pub fn builtin_of(name: &[u8]) -> Option<Builtin>
    ensures { result ≡ builtin_of_name name.now }
{
    Builtin::of_name(name)
}

// A name that isn't declared breaks a rule; that of a builtin another than any other name.
fn unknown(from: u32, name: &[u8]) -> TypeError
    ensures { result ≡ unknown_name_error from (builtin_of_name name.now) }
{
    match builtin_of(name) {
        Some(_) => TypeError::Rule(from, 19),
        None => TypeError::Rule(from, 1),
    }
}

impl Environment {
    // A node for what a name at this offset means.
    fn add_meant(&mut self, from: u32, meaning: Meaning) -> Result<NodeId, AllocError>
        requires ty { IsMeaningBelow (length self.old.table.types) meaning }
        ensures added { IfOk result (StandsAt self.new.table
            (typed_by from (meaning_by (types_of self.old.table.types) meaning))) }
        ensures kept { KeepsAll self.old self.new }
    {
        self.add(match meaning {
            Meaning::Function(number, ty) => Node::SourceFunction { from, number, ty },
            Meaning::Global(place, ty) => Node::GlobalObject { from, place, ty },
            Meaning::Local(place, ty) => Node::LocalObject(place, ty),
        })
    }

    /// What a name is that stands elsewhere than as what is called: a function or an object.
    ///
    /// `Rule` where it isn't declared; the name of a builtin breaks another rule than any other.
    pub fn named(&mut self, from: u32, name: &[u8]) -> Result<NodeId, TypeError>
        ensures agrees { Agrees (StandsAt self.new.table) (named_of self.old.env from name.now) result }
        ensures kept { KeepsAll self.old self.new }
    {
        let Some(meaning) = self.find(name) else {
            return Err(unknown(from, name));
        };
        Ok(self.add_meant(from, meaning)?)
    }

    /// The builtin that a name means which stands as what is called; `None` where the name is declared, or is no builtin's.
    pub fn called_builtin(&self, name: &[u8]) -> Option<Builtin>
        ensures { (from : ℕ) → result ≡ builtin_in self.now.env (Name from name.now) }
    {
        if self.find(name).is_some() {
            return None;
        }
        builtin_of(name)
    }
}
