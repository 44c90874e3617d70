//! Regions that annotations of a parameter say, and what they say of the parameter.

ghost use Rattle.std.specs.Prelude.{◌≡◌, ◌≤◌, List, Option, length};
ghost use Rattle.std.specs.Option.{option_copied};
ghost use Rattle.c_syntax.specs.Nodes.{Nodes};
ghost use Rattle.c_syntax.specs.Stands.{StandsDecl};
ghost use Rattle.c_syntax.specs.Syntax.{Decl, Item as Factors};
ghost use Rattle.c_types_model.specs.Types.{CType};
ghost use Rattle.c_types_model.specs.declared.extent.Extent.{Extent};
ghost use Rattle.c_types_rules.specs.Environment.{extents};
ghost use Rattle.annot_reader_rules.specs.Regions.{Marked, Signature as Known, first_of as first_by_rules, parameter_notes as parameter_by_rules, prepares_of as prepares_by_rules, reads_of as reads_by_rules, writes_of as writes_by_rules};
ghost use Rattle.annot_reader_words.specs.Answers.{Passes, Tells};
ghost use Rattle.annot_reader_words.specs.Items.{MaybeStands};
ghost use Rattle.annot_reader_words.specs.Readings.{IsSame};
ghost use Rattle.annot_reader_functions.specs.Marking.{IsMarked};
ghost use Rattle.annot_reader_functions.specs.Rules.{IsTypeName, Stays};
ghost use Rattle.annot_reader_functions.specs.Sizing.{HasItems, IsParameter, IsTarget, may_stand as may_stand_by_rules, read_item as read_item_by_rules, regions as regions_by_rules};
ghost use Rattle.annot_reader_functions.specs.Sorts.{IsKnown, sort_of};
ghost use Rattle.annot_reader_functions.specs.Seen.{declared_by};

use crate::keys::key_parameter;
use crate::marks::{Marks, marks_of};
use crate::signature::Signature;
use crate::sizes::size_or_own;
use crate::sort::Sort;
use crate::target::Target;
use crate::together::{go_together, has_region};
use annot_reader_words::{AnnotationError, Param, decl_node};
use c_syntax::{DeclId, Item, Tree};
use c_types_environment::Environment;
use stub_core::Size;

// The first item, or where that isn't there the second.
fn first_of<'a>(first: Option<&'a Item>, second: Option<&'a Item>) -> Option<&'a Item>
    ensures { (N : Nodes) (a : Option Factors) (b : Option Factors) →
        MaybeStands N (option_copied first.entry) a → MaybeStands N (option_copied second.entry) b →
        MaybeStands N (option_copied result) (first_by_rules a b) }
{
    match first {
        Some(item) => Some(item),
        None => second,
    }
}

// The item that says how many bytes `in` reads: with `out` the capacity.
fn read_item<'a>(marks: &Marks<'a>) -> Option<&'a Item>
    ensures { (N : Nodes) (m : Marked) → IsMarked N marks.now m →
        MaybeStands N (option_copied result) (read_item_by_rules m) }
{
    if marks.has_out {
        first_of(marks.cap, marks.bsize)
    } else {
        marks.bsize
    }
}

// How many bytes `in` reads.
fn reads_of(
    env: &mut Environment,
    tree: &Tree,
    signature: &Signature,
    target: Target,
    marks: &Marks,
) -> Result<Option<Size>, AnnotationError>
    requires few { length signature.now.params.items ≤ 256 }
    requires items { HasItems tree.now marks.now }
    ensures agrees { (m : Marked) (s : Known) (t : CType) → IsMarked tree.now marks.now m →
        IsKnown signature.now (declared_by env.old).env s → IsTarget target (declared_by env.old).env t →
        Tells IsSame (reads_by_rules s target.from t m) result }
    ensures kept { Stays (declared_by env.old) (declared_by env.new) }
{
    if !marks.has_in {
        return Ok(None);
    }
    let size = size_or_own(env, tree, signature, false, target, read_item(marks))?;
    Ok(Some(size))
}

// The capacity and the used size of what `out` writes: one that stands alone is both.
fn writes_of(
    env: &mut Environment,
    tree: &Tree,
    signature: &Signature,
    target: Target,
    marks: &Marks,
) -> Result<Option<(Size, Size)>, AnnotationError>
    requires few { length signature.now.params.items ≤ 256 }
    requires items { HasItems tree.now marks.now }
    ensures agrees { (m : Marked) (s : Known) (t : CType) → IsMarked tree.now marks.now m →
        IsKnown signature.now (declared_by env.old).env s → IsTarget target (declared_by env.old).env t →
        Tells IsSame (writes_by_rules s target.from t m) result }
    ensures kept { Stays (declared_by env.old) (declared_by env.new) }
{
    if !marks.has_out {
        return Ok(None);
    }
    let one = first_of(marks.cap, marks.bsize);
    let capacity = size_or_own(env, tree, signature, false, target, one)?;
    let other = first_of(marks.bsize, marks.cap);
    let used = size_or_own(env, tree, signature, true, target, other)?;
    Ok(Some((capacity, used)))
}

// The key and the capacity of what `prepare` says is written later.
fn prepares_of(
    env: &mut Environment,
    tree: &Tree,
    signature: &Signature,
    target: Target,
    marks: &Marks,
) -> Result<Option<(u8, Size)>, AnnotationError>
    requires few { length signature.now.params.items ≤ 256 }
    requires items { HasItems tree.now marks.now }
    ensures agrees { (m : Marked) (s : Known) (t : CType) → IsMarked tree.now marks.now m →
        IsKnown signature.now (declared_by env.old).env s → IsTarget target (declared_by env.old).env t →
        Tells IsSame (prepares_by_rules s target.from t m m.prepare) result }
    ensures kept { Stays (declared_by env.old) (declared_by env.new) }
{
    let Some(item) = marks.prepare else {
        return Ok(None);
    };
    let key = key_parameter(signature, item)?;
    let capacity = size_or_own(env, tree, signature, false, target, marks.cap)?;
    Ok(Some((key, capacity)))
}

// What annotations say that may stand at a parameter.
fn regions_of(
    env: &mut Environment,
    tree: &Tree,
    signature: &Signature,
    target: Target,
    marks: &Marks,
) -> Result<Param, AnnotationError>
    requires few { length signature.now.params.items ≤ 256 }
    requires items { HasItems tree.now marks.now }
    ensures agrees { (m : Marked) (s : Known) (t : CType) → IsMarked tree.now marks.now m →
        IsKnown signature.now (declared_by env.old).env s → IsTarget target (declared_by env.old).env t →
        Tells IsParameter (regions_by_rules s target.from t m) result }
    ensures kept { Stays (declared_by env.old) (declared_by env.new) }
{
    let reads = reads_of(env, tree, signature, target, marks)?;
    let writes = writes_of(env, tree, signature, target, marks)?;
    let prepares = prepares_of(env, tree, signature, target, marks)?;
    Ok(Param {
        reads,
        writes,
        prepares,
        callback: marks.callback,
    })
}

// The annotations may stand together at the parameter of this sort that is declared at this offset.
fn may_stand(from: u32, sort: Sort, marks: &Marks) -> Result<(), AnnotationError>
    ensures { (N : Nodes) (m : Marked) (structs : List Extent) (t : CType) → IsMarked N marks.now m →
        sort ≡ sort_of structs t → Passes (may_stand_by_rules from t m) result }
{
    if has_region(marks) && !sort.is_object_pointer() {
        return Err(AnnotationError::Rule(from, 3));
    }
    if marks.callback && !sort.is_function_pointer() {
        return Err(AnnotationError::Rule(from, 3));
    }
    if !go_together(marks) {
        return Err(AnnotationError::Rule(from, 5));
    }
    Ok(())
}

/// What the annotations of a parameter of this sort say of it.
///
/// `Rule` names the first rule of annotations that they break, with the offset of the annotation, of its item or of the parameter; where
/// a type name in them breaks a rule of types, that.
pub fn parameter_notes(
    env: &mut Environment,
    tree: &Tree,
    signature: &Signature,
    sort: Sort,
    id: DeclId,
) -> Result<Param, AnnotationError>
    requires few { length signature.now.params.items ≤ 256 }
    requires id { IsTypeName tree.now id }
    ensures agrees { (d : Decl) (s : Known) (t : CType) → StandsDecl tree.now id d →
        IsKnown signature.now (declared_by env.old).env s →
        sort ≡ sort_of (extents (declared_by env.old).env) t →
        Tells IsParameter (parameter_by_rules s d t) result }
    ensures kept { Stays (declared_by env.old) (declared_by env.new) }
{
    let decl = decl_node(tree, id);
    let marks = marks_of(decl.annots.as_slice())?;
    may_stand(decl.from, sort, &marks)?;
    let target = Target {
        from: decl.from,
        size: sort.target_size(),
    };
    regions_of(env, tree, signature, target, &marks)
}
