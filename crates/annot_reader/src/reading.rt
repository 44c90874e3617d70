//! What one declaration says more.

ghost use Rattle.std.specs.Prelude.{◌≡◌, None, Option, OnOk};
ghost use Rattle.std.specs.List.{All};
ghost use Rattle.c_scopes.specs.Scopes.{innermost};
ghost use Rattle.c_syntax.specs.Stands.{StandsDecl};
ghost use Rattle.c_syntax.specs.Syntax.{Decl as Declaration};
ghost use Rattle.c_types_rules.specs.Environment.{Meaning};
ghost use Rattle.c_types_rules.specs.Expressions.{declared_name};
ghost use Rattle.c_types_rules.specs.Sources.{Function, Program};
ghost use Rattle.annot_reader_rules.specs.Cuts.{function_at, noted, noted_function, noted_name};
ghost use Rattle.annot_reader_rules.specs.Notes.{Annotated};
ghost use Rattle.annot_reader_words.specs.Answers.{Tells};
ghost use Rattle.annot_reader_words.specs.Shown.{IsDecl};
ghost use Rattle.annot_reader_functions.specs.Known.{AreKnown};
ghost use Rattle.annot_reader_functions.specs.Rules.{IsTypeName, Stays, function_in};
ghost use Rattle.annot_reader.specs.Headings.{AreHeadings, IsHeading};
ghost use Rattle.annot_reader.specs.Reading.{AreRead, noted_global, nothing_read};
ghost use Rattle.annot_reader_functions.specs.Seen.{declared_by};

use crate::source::Source;
use annot_reader_functions::{FunctionNotes, Known, function_named, function_notes_after};
use annot_reader_words::{AnnotationError, bare_decls, decl_node, declared_later, global_notes};
use c_builtins::FIRST_SOURCE_FUNCTION;
use c_syntax::{Decl, DeclId, Rest, Tree};
use c_types_environment::{Environment, append};
use std::alloc::Global;

/// What the annotations of a source say so far.
#[derive(Drop)]
pub(crate) struct Reading {
    /// Of its functions, by number less that of the first.
    pub(crate) functions: Vec<FunctionNotes>,
    /// The mutexes that guard its globals, by place.
    pub(crate) guards: Vec<Option<i64>>,
    /// What is known of the annotations of a function, for those that share them.
    pub(crate) known: Option<Known>,
}

// The name that a declaration declares, which is empty where it has none.
fn name_of(decl: &Decl) -> &[u8]
    ensures { result.now ≡ declared_name decl.now.name }
{
    match &decl.name {
        Some(name) => name.as_slice(),
        None => b"",
    }
}

impl Reading {
    ghost use Rattle.std.specs.Prelude.{List, ℕ};

    /// Nothing is said.
    pub(crate) fn new(alloc: Global) -> Reading
        ensures read { (cut : List ℕ) → AreRead cut nothing_read result }
        ensures known { result.known ≡ None }
    {
        Reading {
            functions: Vec::new(alloc),
            guards: Vec::new(alloc),
            known: None,
        }
    }

    // What a declaration of the function at a place says. The first one says it. Of annotations that it shares with the function before
    // only those are read again that speak of parameters.
    fn function(
        &mut self,
        alloc: Global,
        env: &mut Environment,
        source: &Source,
        id: DeclId,
        place: usize,
    ) -> Result<(), AnnotationError>
        requires id { IsTypeName source.now.tree.now id }
        requires numbers { All (IsHeading (declared_by env.old)) source.now.functions.now }
        requires known { AreKnown source.now.tree.now source.now.cut.now self.old.known }
        ensures agrees { (d : Declaration) (fs : List Function) (a : Annotated) →
            StandsDecl source.now.tree.now id d →
            AreHeadings (declared_by env.old) source.now.functions.now fs →
            AreRead source.now.cut.now a self.old →
            Tells (λ b _. AreRead source.now.cut.now b self.new)
            (noted_function (declared_by env.old).env d place (function_at fs place) a) result }
        ensures known { OnOk result (AreKnown source.now.tree.now source.now.cut.now self.new.known) }
        ensures kept { OnOk result (Stays (declared_by env.old) (declared_by env.new)) }
    {
        let Some(heading) = source.function(place) else {
            return Ok(());
        };
        if place < self.functions.len() {
            return declared_later(alloc, source.tree, id);
        }
        let prototype = heading.prototype();
        let notes = function_notes_after(
            alloc,
            env,
            source.tree,
            id,
            &prototype,
            source.cut,
            &mut self.known,
        )?;
        append(&mut self.functions, notes)?;
        Ok(())
    }

    // What the declaration of a global says.
    fn global(&mut self, alloc: Global, tree: &Tree, id: DeclId) -> Result<(), AnnotationError>
        requires { IsDecl tree.now id }
        ensures agrees { (d : Declaration) (cut : List ℕ) (a : Annotated) → StandsDecl tree.now id d →
            AreRead cut a self.old → Tells (λ b _. AreRead cut b self.new) (noted_global d a) result }
        ensures known { self.new.known ≡ self.old.known }
    {
        let guard = global_notes(alloc, tree, id)?;
        append(&mut self.guards, guard)?;
        Ok(())
    }

    // What a declaration says whose name means the function of this number; where it means none, that of a global.
    fn named(
        &mut self,
        alloc: Global,
        env: &mut Environment,
        source: &Source,
        id: DeclId,
        number: Option<u32>,
    ) -> Result<(), AnnotationError>
        requires id { IsTypeName source.now.tree.now id }
        requires numbers { All (IsHeading (declared_by env.old)) source.now.functions.now }
        requires known { AreKnown source.now.tree.now source.now.cut.now self.old.known }
        ensures agrees { (d : Declaration) (p : Program) (m : Option Meaning) (a : Annotated) →
            StandsDecl source.now.tree.now id d →
            AreHeadings (declared_by env.old) source.now.functions.now p.functions →
            number ≡ function_in m → AreRead source.now.cut.now a self.old →
            Tells (λ b _. AreRead source.now.cut.now b self.new)
            (noted_name (declared_by env.old).env p d m a) result }
        ensures known { OnOk result (AreKnown source.now.tree.now source.now.cut.now self.new.known) }
        ensures kept { OnOk result (Stays (declared_by env.old) (declared_by env.new)) }
    {
        let Some(number) = number else {
            return self.global(alloc, source.tree, id);
        };
        let place = number.saturating_sub(u32::from(FIRST_SOURCE_FUNCTION));
        self.function(alloc, env, source, id, place as usize)
    }

    /// What a declaration of the source says. What was said so far counts no more after an error.
    pub(crate) fn note(
        &mut self,
        alloc: Global,
        env: &mut Environment,
        source: &Source,
        id: DeclId,
    ) -> Result<(), AnnotationError>
        requires id { IsTypeName source.now.tree.now id }
        requires numbers { All (IsHeading (declared_by env.old)) source.now.functions.now }
        requires known { AreKnown source.now.tree.now source.now.cut.now self.old.known }
        ensures agrees { (d : Declaration) (p : Program) (a : Annotated) →
            StandsDecl source.now.tree.now id d →
            AreHeadings (declared_by env.old) source.now.functions.now p.functions →
            innermost (declared_by env.old).env.scopes ≡ p.names → AreRead source.now.cut.now a self.old →
            Tells (λ b _. AreRead source.now.cut.now b self.new) (noted (declared_by env.old).env p d a)
            result }
        ensures known { OnOk result (AreKnown source.now.tree.now source.now.cut.now self.new.known) }
        ensures kept { OnOk result (Stays (declared_by env.old) (declared_by env.new)) }
    {
        let decl = decl_node(source.tree, id);
        if let Rest::Members(members) = &decl.rest {
            return bare_decls(alloc, source.tree, members.as_slice());
        }
        let number = function_named(env, name_of(decl));
        self.named(alloc, env, source, id, number)
    }
}
