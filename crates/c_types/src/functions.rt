//! Functions (C11 6.9.1).

ghost use Rattle.std.specs.Prelude.{◌≡◌, ◌+◌, ◌<◌, ◌-◌, ℕ, List, false, length, map, None, Some, is_some, IfOk};
ghost use Rattle.std.specs.List.{All};
ghost use Rattle.c_builtins.specs.Table.{first_source_function};
ghost use Rattle.c_scopes.specs.Scopes.{innermost, meaning_in};
ghost use Rattle.c_syntax.specs.Stands.{StandsDecl, StandsStmt};
ghost use Rattle.c_syntax.specs.Syntax.{Decl, Stmt};
ghost use Rattle.c_types_table.specs.Tables.{type_at, types_of};
ghost use Rattle.c_types_rules.specs.Checked.{keep};
ghost use Rattle.c_types_rules.specs.TypeTests.{same_type};
ghost use Rattle.c_types_operators.specs.Answers.{Agrees};
ghost use Rattle.c_types_environment.specs.Reading.{IsMeaningBelow, meaning_by};
ghost use Rattle.c_types_rules.specs.Environment.{is_reserved as is_reserved_name};
ghost use Rattle.c_types_rules.specs.Sources.{body_at, declared_again, function_declared as declared_by_rules, with_body};
ghost use Rattle.c_types_program.specs.Declarations.{IsBody, IsFunction, body_in, function_in};
ghost use Rattle.c_types_nodes.specs.Tables.{Table};
ghost use Rattle.c_types_expressions.specs.Walks.{IsDecl};
ghost use Rattle.c_types_statements.specs.Walks.{IsStmt};
ghost use Rattle.c_types.specs.States.{Follows, IsFunctionPlace, IsSound, Steps, program_of};
ghost use Rattle.c_types.specs.Pieces.{defined_of, function_of};

use crate::declarations::Declarations;
use crate::members::name_of;
use crate::signature::is_main_type;
use c_builtins::FIRST_SOURCE_FUNCTION;
use c_lexer::Text;
use c_syntax::{DeclId, Rest, StmtId, Tree};
use c_types_environment::{Meaning, append, is_reserved};
use c_types_operators::TypeError;
use c_types_program::{Body, Function};
use c_types_statements::body;
use c_types_table::TypeId;
use std::alloc::AllocError;

impl Declarations {
    /// A function of this type: declared, and defined where its body is there.
    pub(crate) fn function(&mut self, tree: &Tree, id: DeclId, ty: TypeId) -> Result<(), TypeError>
        requires id { IsDecl tree.now id }
        requires ty { ty.0 < length self.old.env.table.types }
        requires sound { IsSound self.old }
        ensures { (d : Decl) → StandsDecl tree.now id d →
            Follows self.old self.new (function_of self.old.env.env.tags (program_of self.old)
            (type_at self.old.env.table.types ty) d) result }
    {
        let decl = tree.decl(id);
        let place = self.function_declared(decl.from, name_of(decl), ty)?;
        match &decl.rest {
            Rest::None => Ok(()),
            Rest::Value(_) => Err(TypeError::Rule(decl.from, 16)),
            Rest::Body(block) => self.function_defined(tree, id, place, ty, *block),
            Rest::Members(_) => Err(TypeError::Rule(decl.from, 3)),
        }
    }

    // The place of a function that is declared, which may be declared before with an equal type (C11 6.7, 4).
    fn function_declared(&mut self, from: u32, name: &[u8], ty: TypeId) -> Result<usize, TypeError>
        requires ty { ty.0 < length self.old.env.table.types }
        requires sound { IsSound self.old }
        ensures { Steps self.old self.new (IsFunctionPlace self.new)
            (declared_by_rules (program_of self.old) from (type_at self.old.env.table.types ty) name.now)
            result }
    {
        if is_reserved(name) {
            return Err(TypeError::Rule(from, 19));
        }
        match self.env.find_here(name) {
            Some(meaning) => self.declared_again(from, meaning, ty),
            None => self.new_function(from, name, ty),
        }
    }

    // The place of a function whose name means something already.
    fn declared_again(&self, from: u32, meaning: Meaning, ty: TypeId) -> Result<usize, TypeError>
        requires meaning { IsMeaningBelow (length self.now.env.table.types) meaning }
        requires ty { ty.0 < length self.now.env.table.types }
        requires sound { IsSound self.now }
        ensures { (name : List ℕ) → Steps self.now self.now (IsFunctionPlace self.now)
            (declared_again (program_of self.now) from (type_at self.now.env.table.types ty)
            (Some (meaning_by (types_of self.now.env.table.types) meaning)) name) result }
    {
        match meaning {
            Meaning::Function(number, before) => self.same_function(from, number, before, ty),
            _ => Err(TypeError::Rule(from, 1)),
        }
    }

    // The place of the function of this number, which is declared before with a type, and again with another.
    fn same_function(
        &self,
        from: u32,
        number: u32,
        before: TypeId,
        ty: TypeId,
    ) -> Result<usize, TypeError>
        requires before { before.0 < length self.now.env.table.types }
        requires ty { ty.0 < length self.now.env.table.types }
        ensures { Agrees (λ _ place. place ≡ number - first_source_function)
            (keep from 1 (same_type (type_at self.now.env.table.types ty)
            (type_at self.now.env.table.types before))) result }
    {
        if self.env.table().types().is_same(ty, before) {
            Ok((number as usize).saturating_sub(FIRST_SOURCE_FUNCTION as usize))
        } else {
            Err(TypeError::Rule(from, 1))
        }
    }

    // The place of a function that isn't declared before.
    fn new_function(&mut self, from: u32, name: &[u8], ty: TypeId) -> Result<usize, TypeError>
        requires allowed { is_reserved_name name.now ≡ false }
        requires fresh { meaning_in name.now (innermost self.old.env.env.scopes) ≡ None }
        requires ty { ty.0 < length self.old.env.table.types }
        requires sound { IsSound self.old }
        ensures { Steps self.old self.new (IsFunctionPlace self.new)
            (declared_again (program_of self.old) from (type_at self.old.env.table.types ty) None name.now)
            result }
    {
        let place = self.functions.len();
        let number = function_number(place)?;
        self.env.declare(from, name, Meaning::Function(number, ty))?;
        let name = Text::from_slice(self.env.alloc(), name)?;
        let function = Function {
            name,
            ty,
            body: None,
        };
        append(&mut self.functions, function)?;
        Ok(place)
    }

    // A function that has a body once at most.
    fn function_defined(
        &mut self,
        tree: &Tree,
        id: DeclId,
        place: usize,
        ty: TypeId,
        block: StmtId,
    ) -> Result<(), TypeError>
        requires id { IsDecl tree.now id }
        requires block { IsStmt tree.now block }
        requires ty { ty.0 < length self.old.env.table.types }
        requires sound { IsSound self.old }
        ensures { (d : Decl) (s : Stmt) → StandsDecl tree.now id d → StandsStmt tree.now block s →
            Follows self.old self.new (defined_of self.old.env.env.tags (program_of self.old) place
            (type_at self.old.env.table.types ty) d s) result }
    {
        let decl = tree.decl(id);
        if has_body(&self.functions, place) {
            return Err(TypeError::Rule(decl.from, 21));
        }
        if name_of(decl) == b"main".as_slice() && !is_main_type(&self.env, ty) {
            return Err(TypeError::Rule(decl.from, 18));
        }
        let body = body(&mut self.env, tree, ty, decl.parts.as_slice(), block)?;
        set_body(&mut self.functions, place, body);
        Ok(())
    }
}

// The number of the function at a place, which is 16 more. `AllocError` where it doesn't fit.
fn function_number(place: usize) -> Result<u32, AllocError>
    ensures { IfOk result (λ number. number ≡ place + first_source_function) }
{
    let place = u32::try_from(place).map_err(|_| AllocError)?;
    place
        .checked_add(u32::from(FIRST_SOURCE_FUNCTION))
        .ok_or(AllocError)
}

// Whether the function at a place has a body.
fn has_body(functions: &[Function], place: usize) -> bool
    ensures { (t : Table) → result ≡ is_some (body_at (map (function_in t) functions.now) place) }
{
    match functions.get(place) {
        Some(function) => function.body.is_some(),
        None => false,
    }
}

// Gives the function at a place its body.
fn set_body(functions: &mut [Function], place: usize, body: Body)
    ensures given { (t : Table) → map (function_in t) functions.new ≡
        with_body (map (function_in t) functions.old) place (body_in t body) }
    ensures sound { (t : Table) → IsBody t (Some body) → All (IsFunction t) functions.old →
        All (IsFunction t) functions.new }
{
    if place < functions.len() {
        functions[place].body = Some(body);
    }
}
