//! Declarations of functions that share their annotations.

ghost use Rattle.std.specs.Prelude.{◌≡◌, ◌<◌, ◌≤◌, true, IfOk, List, OnOk, ℕ, length};
ghost use Rattle.c_syntax.specs.Alike.{ShareSpecifiers};
ghost use Rattle.c_syntax.specs.Stands.{StandsDecl};
ghost use Rattle.c_syntax.specs.Syntax.{Decl as Declaration};
ghost use Rattle.c_types_table.specs.Tables.{all_at, at};
ghost use Rattle.annot_reader_rules.specs.Functions.{all_noted, function_notes as function_by_rules, nothing};
ghost use Rattle.annot_reader_rules.specs.Notes.{Notes, Parameter};
ghost use Rattle.annot_reader_rules.specs.Regions.{Signature as Named};
ghost use Rattle.annot_reader_words.specs.Answers.{Passes, Tells};
ghost use Rattle.annot_reader_words.specs.Shown.{IsDecl};
ghost use Rattle.annot_reader_functions.specs.First.{bare_besides as bare_besides_of};
ghost use Rattle.annot_reader_functions.specs.Known.{AreKnown, IsBeside, IsKept, IsKnownOf, SayBeside, annots_of, parameter_words, places_from, with_parameters};
ghost use Rattle.annot_reader_functions.specs.Parameters.{AreRead, AreTypes};
ghost use Rattle.annot_reader_functions.specs.Rules.{IsTypeName, Stays};
ghost use Rattle.annot_reader_functions.specs.Sayings.{AreSaid, IsNoted, IsSaid, kind_in};
ghost use Rattle.annot_reader_functions.specs.Seen.{declared_by};
ghost use Rattle.annot_reader_functions.specs.Sorts.{IsKnown};

use crate::again::{parameter_places, said_at};
use crate::first::{function_notes, in_scope};
use crate::kind::{FunctionKind, Prototype};
use crate::named::signature_of;
use crate::notes::FunctionNotes;
use crate::said::Said;
use crate::subject::Subject;
use annot_reader_words::{
    AnnotationError, Annots, Param, bare_parts, bare_rest, decl_node, split_parts,
};
use c_syntax::{DeclId, Seq, SharedSeq, Tree};
use c_types_environment::Environment;
use std::alloc::{AllocError, Global};

/// What the annotations of a declaration say of a function beside what they say of its parameters, where a cut is looked for. Where no
/// mutexes are held, they say the same of functions with and without a body.
#[derive(Drop)]
pub struct Known {
    pub decl: DeclId,
    /// They stand at the function where a program begins.
    pub is_main: bool,
    /// It is in the interface of the cut.
    pub in_cut: bool,
    /// Equal results are written once.
    pub cache: bool,
    /// The mutexes that its callers hold, in order.
    pub holds: SharedSeq<i64>,
    /// The places of the annotations that speak of parameters, from 0.
    pub words: Vec<usize>,
}

// Whether it is known to be said of a function of this kind too, whose declaration has this number.
fn is_said_too(tree: &Tree, said: &Known, id: DeclId, kind: FunctionKind) -> bool
    requires one { said.now.decl.0 < length tree.now.decls }
    requires other { id.0 < length tree.now.decls }
    ensures share { result ≡ true → ShareSpecifiers tree.now.decls said.now.decl id }
    ensures kind { result ≡ true → IsKnownOf said.now kind }
{
    said.is_main == kind.is_main
        && (kind.has_body || said.holds.as_slice().is_empty())
        && tree.share_specifiers(said.decl, id)
}

// What is known of the annotations of a declaration by which this is said of a function. `AllocError` where there is no memory for it.
fn known_by(
    alloc: Global,
    tree: &Tree,
    id: DeclId,
    kind: FunctionKind,
    notes: &FunctionNotes,
) -> Result<Known, AllocError>
    requires { IsDecl tree.now id }
    ensures { IfOk result (IsKept tree.now id kind notes.now) }
{
    let words = parameter_places(alloc, decl_node(tree, id).annots.as_slice())?;
    Ok(Known {
        decl: id,
        is_main: kind.is_main,
        in_cut: notes.in_cut,
        cache: notes.annots.cache,
        holds: notes.holds.share()?,
        words,
    })
}

// No parameter outside the function's own list has annotations, beside those in its own annotations.
fn bare_besides(alloc: Global, tree: &Tree, id: DeclId) -> Result<(), AnnotationError>
    requires { IsDecl tree.now id }
    ensures { (d : Declaration) → StandsDecl tree.now id d → Passes (bare_besides_of d) result }
{
    let decl = decl_node(tree, id);
    let (outer, _) = split_parts(decl.parts.as_slice());
    bare_parts(alloc, tree, outer)?;
    bare_rest(alloc, tree, &decl.rest)
}

// What the annotations of the function itself say that speak of its parameters, where these are at those places.
fn words_again(
    alloc: Global,
    env: &mut Environment,
    tree: &Tree,
    id: DeclId,
    subject: &Subject,
    places: &[usize],
) -> Result<Said, AnnotationError>
    requires few { length subject.now.signature.now.params.items ≤ 256 }
    requires id { IsTypeName tree.now id }
    requires places { (d : Declaration) → StandsDecl tree.now id d →
        places.now ≡ places_from 0 (annots_of d) }
    ensures agrees { (d : Declaration) (s : Named) → StandsDecl tree.now id d →
        IsKnown subject.now.signature.now (declared_by env.old).env s → Tells (AreSaid subject.now.cut.now)
        (all_noted (parameter_words (annots_of d)) s (kind_in subject.now.kind) nothing) result }
    ensures kept { Stays (declared_by env.old) (declared_by env.new) }
{
    let annots = decl_node(tree, id).annots.as_slice();
    said_at(alloc, env, tree, subject, annots, places)
}

// What is said of a function where this is known, and this said of its parameters.
fn with_said(known: &Known, said: Said, params: Vec<Param>) -> Result<FunctionNotes, AllocError>
    ensures { (cut : List ℕ) (n m : Notes) (ps : List Parameter) → IsBeside cut n known.now →
        IsSaid cut said m → AreRead ps params.items →
        IfOk result (IsNoted cut (record (with_parameters n m) { params = ps })) }
{
    let holds = known.holds.share()?;
    Ok(FunctionNotes {
        in_cut: known.in_cut,
        annots: Annots {
            params: Seq::from(params),
            sync: Seq::from(said.sync),
            commit: said.commit,
            cache: known.cache,
        },
        holds,
    })
}

// The same as `function_notes`, where its own annotations say this beside what they say of its parameters.
fn notes_by(
    alloc: Global,
    env: &mut Environment,
    tree: &Tree,
    id: DeclId,
    prototype: &Prototype,
    cut: &[u8],
    known: &Known,
) -> Result<FunctionNotes, AnnotationError>
    requires id { IsTypeName tree.now id }
    requires result { prototype.now.result.0 < length (declared_by env.old).types }
    requires params { AreTypes (declared_by env.old) prototype.now.params.now }
    requires count { length prototype.now.params.now ≤ 256 }
    requires kind { IsKnownOf known.now prototype.now.kind }
    requires says { (d : Declaration) → StandsDecl tree.now id d →
        SayBeside cut.now (annots_of d) known.now }
    ensures agrees { (d : Declaration) → StandsDecl tree.now id d →
        Tells (IsNoted cut.now) (function_by_rules (declared_by env.old).env (kind_in prototype.now.kind) d
        (at (declared_by env.old).types prototype.now.result)
        (all_at (declared_by env.old).types prototype.now.params.now)) result }
    ensures kept { OnOk result (Stays (declared_by env.old) (declared_by env.new)) }
{
    bare_besides(alloc, tree, id)?;
    let (_, own) = split_parts(decl_node(tree, id).parts.as_slice());
    let signature = signature_of(alloc, env, tree, own, prototype)?;
    let subject = Subject {
        signature: &signature,
        kind: prototype.kind,
        cut,
    };
    let said = words_again(alloc, env, tree, id, &subject, known.words.as_slice())?;
    let params = in_scope(alloc, env, tree, &signature, own, prototype.params)?;
    Ok(with_said(known, said, params)?)
}

/// The same as `function_notes`, where it may be known what the annotations of an earlier declaration say: where both share these, only
/// those are read again that speak of parameters. Then it is known of this one.
pub fn function_notes_after(
    alloc: Global,
    env: &mut Environment,
    tree: &Tree,
    id: DeclId,
    prototype: &Prototype,
    cut: &[u8],
    known: &mut Option<Known>,
) -> Result<FunctionNotes, AnnotationError>
    requires id { IsTypeName tree.now id }
    requires result { prototype.now.result.0 < length (declared_by env.old).types }
    requires params { AreTypes (declared_by env.old) prototype.now.params.now }
    // A function has few parameters.
    requires count { length prototype.now.params.now ≤ 256 }
    requires known { AreKnown tree.now cut.now known.old }
    ensures agrees { (d : Declaration) → StandsDecl tree.now id d →
        Tells (IsNoted cut.now) (function_by_rules (declared_by env.old).env (kind_in prototype.now.kind) d
        (at (declared_by env.old).types prototype.now.result)
        (all_at (declared_by env.old).types prototype.now.params.now)) result }
    ensures known { OnOk result (AreKnown tree.now cut.now known.new) }
    ensures kept { OnOk result (Stays (declared_by env.old) (declared_by env.new)) }
{
    if let Some(said) = &*known {
        if is_said_too(tree, said, id, prototype.kind) {
            return notes_by(alloc, env, tree, id, prototype, cut, said);
        }
    }
    let notes = function_notes(alloc, env, tree, id, prototype, cut)?;
    *known = Some(known_by(alloc, tree, id, prototype.kind, &notes)?);
    Ok(notes)
}
