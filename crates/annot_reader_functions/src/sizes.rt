//! Sizes of regions, in bytes.

ghost use Rattle.std.specs.Prelude.{◌≡◌, ◌≤◌, Bool, Option, length};
ghost use Rattle.std.specs.Option.{option_copied};
ghost use Rattle.c_syntax.specs.Stands.{StandsAtom, StandsItem};
ghost use Rattle.c_syntax.specs.Syntax.{Atom as Factor, Item as Factors, NameAtom, ReturnAtom};
ghost use Rattle.c_types_model.specs.Types.{CType};
ghost use Rattle.c_types_rules.specs.Environment.{Environment as Declared};
ghost use Rattle.annot_reader_rules.specs.Regions.{Signature as Known, own_size as own_size_of, size as size_by_rules, size_or_own as size_or_own_of, term as term_of};
ghost use Rattle.annot_reader_words.specs.Answers.{Tells};
ghost use Rattle.annot_reader_words.specs.Items.{MaybeStands};
ghost use Rattle.annot_reader_words.specs.Readings.{IsSame};
ghost use Rattle.annot_reader_functions.specs.Rules.{Stays};
ghost use Rattle.annot_reader_functions.specs.Sizing.{IsFactor, IsItem, IsMaybeItem, IsTarget};
ghost use Rattle.annot_reader_functions.specs.Sorts.{IsKnown};
ghost use Rattle.annot_reader_functions.specs.Seen.{declared_by};

use crate::rules::size_of_name;
use crate::signature::Signature;
use crate::target::Target;
use annot_reader_words::AnnotationError;
use c_syntax::{Atom, Item, Tree};
use c_types_environment::Environment;
use stub_core::{Size, Term};

// A factor that is the parameter of this name, an integer.
fn named_term(signature: &Signature, from: u32, name: &[u8]) -> Result<Term, AnnotationError>
    requires few { length signature.now.params.items ≤ 256 }
    ensures { (env : Declared) (s : Known) (known : Bool) → IsKnown signature.now env s →
        Tells IsSame (term_of s from known (NameAtom name.now)) result }
{
    let Some((place, sort)) = signature.find(name) else {
        return Err(AnnotationError::Rule(from, 4));
    };
    if !sort.is_integer() {
        return Err(AnnotationError::Rule(from, 4));
    }
    Ok(Term::Param(place))
}

// A factor that is the result of the call, an integer, where that is known.
fn result_term(signature: &Signature, from: u32, known: bool) -> Result<Term, AnnotationError>
    ensures { (env : Declared) (s : Known) → IsKnown signature.now env s →
        Tells IsSame (term_of s from known ReturnAtom) result }
{
    if known && signature.gives_integer {
        Ok(Term::Return)
    } else {
        Err(AnnotationError::Rule(from, 4))
    }
}

// A factor of the item at this offset. The result of the call may be one where it is known.
fn term(
    env: &mut Environment,
    tree: &Tree,
    signature: &Signature,
    from: u32,
    known: bool,
    atom: &Atom,
) -> Result<Term, AnnotationError>
    requires few { length signature.now.params.items ≤ 256 }
    requires factor { IsFactor tree.now atom.now }
    ensures agrees { (a : Factor) (s : Known) → StandsAtom tree.now atom.now a →
        IsKnown signature.now (declared_by env.old).env s → Tells IsSame (term_of s from known a) result }
    ensures kept { Stays (declared_by env.old) (declared_by env.new) }
{
    match atom {
        Atom::Name(name) => named_term(signature, from, name.as_slice()),
        Atom::Number(number) => Ok(Term::Const(*number)),
        Atom::Return => result_term(signature, from, known),
        Atom::Sizeof(id) => Ok(Term::Const(size_of_name(env, tree, *id)?)),
    }
}

/// The size that an item is: a factor, or the product of two. `known` says whether the result of the call may be one.
///
/// `Rule` names the first rule that the item breaks, with its offset; where a type name in it breaks a rule of types, that.
pub fn size(
    env: &mut Environment,
    tree: &Tree,
    signature: &Signature,
    known: bool,
    item: &Item,
) -> Result<Size, AnnotationError>
    requires few { length signature.now.params.items ≤ 256 }
    requires item { IsItem tree.now item.now }
    ensures agrees { (x : Factors) (s : Known) → StandsItem tree.now item.now x →
        IsKnown signature.now (declared_by env.old).env s → Tells IsSame (size_by_rules s known x) result }
    ensures kept { Stays (declared_by env.old) (declared_by env.new) }
{
    let a = term(env, tree, signature, item.from, known, &item.a)?;
    let Some(second) = &item.b else {
        return Ok(Size { a, b: None });
    };
    let b = term(env, tree, signature, item.from, known, second)?;
    Ok(Size { a, b: Some(b) })
}

// The size of what a parameter points to, which has to be known.
fn own_size(target: Target) -> Result<Size, AnnotationError>
    ensures { (env : Declared) (s : Known) (t : CType) → s.env ≡ env → IsTarget target env t →
        Tells IsSame (own_size_of s target.from t) result }
{
    match target.size {
        Some(size) => Ok(Size {
            a: Term::Const(size),
            b: None,
        }),
        None => Err(AnnotationError::Rule(target.from, 6)),
    }
}

/// The size that an item is; where there is none, that of what the parameter points to, which has to be known.
pub(crate) fn size_or_own(
    env: &mut Environment,
    tree: &Tree,
    signature: &Signature,
    known: bool,
    target: Target,
    item: Option<&Item>,
) -> Result<Size, AnnotationError>
    requires few { length signature.now.params.items ≤ 256 }
    requires item { IsMaybeItem tree.now (option_copied item) }
    ensures agrees { (o : Option Factors) (s : Known) (t : CType) →
        MaybeStands tree.now (option_copied item.entry) o →
        IsKnown signature.now (declared_by env.old).env s → IsTarget target (declared_by env.old).env t →
        Tells IsSame (size_or_own_of s target.from known t o) result }
    ensures kept { Stays (declared_by env.old) (declared_by env.new) }
{
    match item {
        Some(item) => size(env, tree, signature, known, item),
        None => own_size(target),
    }
}
