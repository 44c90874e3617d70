//! What the first declaration of a function says of it.

ghost use Rattle.std.specs.Prelude.{◌≡◌, ◌<◌, ◌≤◌, length, OnOk};
ghost use Rattle.c_syntax.specs.Stands.{StandDecls, StandsDecl};
ghost use Rattle.c_syntax.specs.Syntax.{Decl as Declaration, Decls};
ghost use Rattle.c_types_table.specs.Tables.{all_at, at};
ghost use Rattle.c_types_rules.specs.Environment.{inner};
ghost use Rattle.annot_reader_rules.specs.Functions.{all_parameters as all_by_rules, function_notes as function_by_rules, within};
ghost use Rattle.annot_reader_rules.specs.Regions.{Signature as Known};
ghost use Rattle.annot_reader_words.specs.Answers.{Passes, Tells};
ghost use Rattle.annot_reader_words.specs.Shown.{IsDecl};
ghost use Rattle.annot_reader_functions.specs.Rules.{IsTypeName, Stays};
ghost use Rattle.annot_reader_functions.specs.Sorts.{IsKnown};
ghost use Rattle.annot_reader_functions.specs.First.{bare_outside as bare_outside_of, heading as heading_of};
ghost use Rattle.annot_reader_functions.specs.Parameters.{AreDecls, AreRead, AreTypes};
ghost use Rattle.annot_reader_functions.specs.Sayings.{AreSaid, IsNoted, kind_in};
ghost use Rattle.annot_reader_functions.specs.Seen.{declared_by};

use crate::finish::notes_of;
use crate::kind::Prototype;
use crate::list::said_of;
use crate::named::signature_of;
use crate::notes::FunctionNotes;
use crate::parameters::parameters;
use crate::said::Said;
use crate::signature::Signature;
use crate::subject::Subject;
use annot_reader_words::{
    AnnotationError, Param, bare_annots, bare_parts, bare_rest, decl_node, split_parts,
};
use c_syntax::{DeclId, Tree};
use c_types_environment::Environment;
use c_types_table::TypeId;
use std::alloc::Global;

// No parameter outside the function's own list has annotations.
fn bare_outside(alloc: Global, tree: &Tree, id: DeclId) -> Result<(), AnnotationError>
    requires { IsDecl tree.now id }
    ensures { (d : Declaration) → StandsDecl tree.now id d → Passes (bare_outside_of d) result }
{
    let decl = decl_node(tree, id);
    let (outer, _) = split_parts(decl.parts.as_slice());
    bare_annots(alloc, tree, decl.annots.as_slice())?;
    bare_parts(alloc, tree, outer)?;
    bare_rest(alloc, tree, &decl.rest)
}

// What the annotations of the function itself say.
fn heading(
    alloc: Global,
    env: &mut Environment,
    tree: &Tree,
    id: DeclId,
    subject: &Subject,
) -> Result<Said, AnnotationError>
    requires few { length subject.now.signature.now.params.items ≤ 256 }
    requires id { IsTypeName tree.now id }
    ensures agrees { (d : Declaration) (s : Known) → StandsDecl tree.now id d →
        IsKnown subject.now.signature.now (declared_by env.old).env s →
        Tells (AreSaid subject.now.cut.now) (heading_of s (kind_in subject.now.kind) d) result }
    ensures kept { Stays (declared_by env.old) (declared_by env.new) }
{
    let decl = decl_node(tree, id);
    let said = said_of(alloc, env, tree, subject, decl.annots.as_slice())?;
    if said.has_cuts && !said.holds.is_empty() {
        return Err(AnnotationError::Rule(decl.from, 8));
    }
    Ok(said)
}

// What is said of the parameters, in a scope of their own.
pub(crate) fn in_scope(
    alloc: Global,
    env: &mut Environment,
    tree: &Tree,
    signature: &Signature,
    ids: &[DeclId],
    types: &[TypeId],
) -> Result<Vec<Param>, AnnotationError>
    requires few { length signature.now.params.items ≤ 256 }
    requires ids { AreDecls tree.now ids.now }
    requires types { AreTypes (declared_by env.old) types.now }
    requires count { length types.now ≤ 256 }
    ensures agrees { (ds : Decls) (s : Known) → StandDecls tree.now ids.now ds →
        IsKnown signature.now (declared_by env.old).env s →
        Tells (λ ps v. AreRead ps v.items) (all_by_rules ds (within s (inner s.env)) 0
        (all_at (declared_by env.old).types types.now)) result }
    ensures kept { OnOk result (Stays (declared_by env.old) (declared_by env.new)) }
{
    env.open_scope()?;
    let params = parameters(alloc, env, tree, signature, ids, types)?;
    env.close_scope();
    Ok(params)
}

/// What the first declaration of a function says of it, where a cut is looked for.
///
/// `Rule` names the first rule of annotations that it breaks, with the offset of the node that breaks it; where a type name in its
/// annotations breaks a rule of types, that. What is declared is as before, but not after an error.
pub fn function_notes(
    alloc: Global,
    env: &mut Environment,
    tree: &Tree,
    id: DeclId,
    prototype: &Prototype,
    cut: &[u8],
) -> Result<FunctionNotes, AnnotationError>
    requires id { IsTypeName tree.now id }
    requires result { prototype.now.result.0 < length (declared_by env.old).types }
    requires params { AreTypes (declared_by env.old) prototype.now.params.now }
    // A function has few parameters.
    requires count { length prototype.now.params.now ≤ 256 }
    ensures agrees { (d : Declaration) → StandsDecl tree.now id d →
        Tells (IsNoted cut.now) (function_by_rules (declared_by env.old).env (kind_in prototype.now.kind) d
        (at (declared_by env.old).types prototype.now.result)
        (all_at (declared_by env.old).types prototype.now.params.now)) result }
    ensures kept { OnOk result (Stays (declared_by env.old) (declared_by env.new)) }
{
    bare_outside(alloc, tree, id)?;
    let (_, own) = split_parts(decl_node(tree, id).parts.as_slice());
    let signature = signature_of(alloc, env, tree, own, prototype)?;
    let subject = Subject {
        signature: &signature,
        kind: prototype.kind,
        cut,
    };
    let said = heading(alloc, env, tree, id, &subject)?;
    let params = in_scope(alloc, env, tree, &signature, own, prototype.params)?;
    Ok(notes_of(alloc, said, params)?)
}
