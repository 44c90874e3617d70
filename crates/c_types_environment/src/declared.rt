//! Names in scopes (C11 6.2.1).

ghost use Rattle.std.specs.Prelude.{◌≡◌, ◌≤◌, ◌∷◌, drop, length, IfSome, OnOk, OnErr};
ghost use Rattle.c_types_table.specs.Tables.{types_of};
ghost use Rattle.c_scopes.specs.Scopes.{innermost, meaning_in, meaning_of};
ghost use Rattle.c_types_rules.specs.Environment.{declarable, inner, with_name};
ghost use Rattle.c_types_operators.specs.Answers.{Agrees};
ghost use Rattle.c_types_environment.specs.Reading.{IsMeaningBelow, maybe_by, meaning_by};

use crate::environment::Environment;
use crate::meaning::Meaning;
use crate::names::is_reserved;
use c_types_operators::TypeError;
use std::alloc::AllocError;

impl Environment {
    /// Opens a scope within the innermost one. `AllocError` where there is no memory for it. Then none is opened.
    pub fn open_scope(&mut self) -> Result<(), AllocError>
        ensures opened { OnOk result (self.new ≡ record self.old { env = inner self.old.env }) }
        // It can be closed.
        ensures within { OnOk result (2 ≤ length self.new.env.scopes) }
        ensures err { OnErr result (self.new ≡ self.old) }
    {
        self.scopes.open()
    }

    /// Closes the innermost scope, which isn't the only one, with its names.
    pub fn close_scope(&mut self)
        requires { 2 ≤ length self.old.env.scopes }
        ensures { self.new ≡ record self.old {
          env =
              record self.old.env { scopes = drop 1 self.old.env.scopes };
        } }
    {
        self.scopes.close();
    }

    /// Declares a name in the innermost scope (C11 6.7, 3). `from` is the offset of the declaration.
    ///
    /// `Rule` where the name begins with `r2_`, or stands in this scope already. After an error nothing is declared.
    pub fn declare(&mut self, from: u32, name: &[u8], meaning: Meaning) -> Result<(), TypeError>
        requires ty { IsMeaningBelow (length self.old.table.types) meaning }
        ensures agrees { Agrees (λ _ _. self.new ≡
            record self.old {
              env = with_name self.old.env name.now
                  (meaning_by (types_of self.old.table.types) meaning);
            }) (declarable self.old.env from name.now)
            result }
        ensures err { OnErr result (self.new ≡ self.old) }
    {
        if is_reserved(name) {
            return Err(TypeError::Rule(from, 19));
        }
        if self.scopes.find_here(name).is_some() {
            return Err(TypeError::Rule(from, 1));
        }
        self.scopes.declare(name, meaning)?;
        Ok(())
    }

    /// What a name means: what it was last declared as in the innermost of the scopes that have it; `None` where none has it.
    pub fn find(&self, name: &[u8]) -> Option<Meaning>
        ensures meaning { maybe_by (types_of self.now.table.types) result ≡
            meaning_of name.now self.now.env.scopes }
        ensures inside { IfSome result (IsMeaningBelow (length self.now.table.types)) }
    {
        self.scopes.find(name)
    }

    /// What a name was last declared as in the innermost scope; `None` where it isn't declared there.
    pub fn find_here(&self, name: &[u8]) -> Option<Meaning>
        ensures meaning { maybe_by (types_of self.now.table.types) result ≡
            meaning_in name.now (innermost self.now.env.scopes) }
        ensures inside { IfSome result (IsMeaningBelow (length self.now.table.types)) }
    {
        self.scopes.find_here(name)
    }
}
