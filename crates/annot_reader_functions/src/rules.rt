//! What annotations ask of an environment.

ghost use Rattle.std.specs.Prelude.{◌≡◌, ◌<◌, Some, length};
ghost use Rattle.c_syntax.specs.Stands.{StandsDecl};
ghost use Rattle.c_syntax.specs.Syntax.{Decl};
ghost use Rattle.c_types_table.specs.Tables.{at, type_at};
ghost use Rattle.c_scopes.specs.Scopes.{innermost, meaning_in};
ghost use Rattle.c_types_rules.specs.Environment.{extents};
ghost use Rattle.c_types_rules.specs.Expressions.{with_parameter};
ghost use Rattle.annot_reader_words.specs.Answers.{Tells};
ghost use Rattle.annot_reader_words.specs.Readings.{IsSame};
ghost use Rattle.annot_reader_functions.specs.Rules.{IsTypeName, Stays, function_in, size_named};
ghost use Rattle.annot_reader_functions.specs.Seen.{declared_by};
ghost use Rattle.annot_reader_functions.specs.Sorts.{pointee_of, sort_of as sort_by_rules};

use crate::sort::{Pointee, Sort};
use crate::type_errors::in_annotation;
use annot_reader_words::AnnotationError;
use c_syntax::{DeclId, Tree};
use c_types_environment::{Environment, Meaning};
use c_types_expressions::declared_type;
use c_types_table::{Ty, TypeId};

/// The size in bytes of the type that a type name names. A size past 2^64 - 1 counts as 2^64 - 1; an incomplete type has none, and 0
/// stands for it.
///
/// `Rule` names the first rule of types that the type name breaks, with the offset of the node that breaks it.
pub(crate) fn size_of_name(
    env: &mut Environment,
    tree: &Tree,
    id: DeclId,
) -> Result<u64, AnnotationError>
    requires { IsTypeName tree.now id }
    ensures agrees { (d : Decl) → StandsDecl tree.now id d →
        Tells IsSame (size_named env.old.env d) result }
    ensures kept { Stays (declared_by env.old) (declared_by env.new) }
{
    match declared_type(env, tree, id) {
        Ok(ty) => Ok(env.size_of(ty).unwrap_or(0)),
        Err(error) => Err(in_annotation(error)),
    }
}

// What a pointer to a type points to.
fn pointee(env: &Environment, ty: TypeId) -> Pointee
    requires { ty.0 < length env.now.table.types }
    ensures { result ≡ pointee_of (extents env.now.env) (type_at env.now.table.types ty) }
{
    match env.table().types().get(ty) {
        Ty::Function { .. } => Pointee::Function,
        _ => Pointee::Object(env.size_of(ty)),
    }
}

/// Of which sort a type is.
#[tactic(auto, using(crate::proofs::Numbers::as_many_types))]
pub(crate) fn sort_of(env: &Environment, ty: TypeId) -> Sort
    requires { ty.0 < length (declared_by env.now).types }
    ensures { result ≡ sort_by_rules (extents env.now.env) (at (declared_by env.now).types ty) }
{
    match env.table().types().get(ty) {
        Ty::Int(_) => Sort::Integer,
        Ty::Pointer(target) => Sort::Pointer(pointee(env, *target)),
        _ => Sort::Other,
    }
}

/// The number of the function that a name means in the innermost scope; `None` where it means something else or nothing.
pub fn function_named(env: &Environment, name: &[u8]) -> Option<u32>
    ensures { result ≡ function_in (meaning_in name.now (innermost env.now.env.scopes)) }
{
    match env.find_here(name) {
        Some(Meaning::Function(number, _)) => Some(number),
        _ => None,
    }
}

/// Declares a parameter of a type in the innermost scope, which stands at this place in the list, from 0 (C11 6.7, 3).
///
/// `Rule` where the name begins with `r2_`, or stands in this scope already. `from` is the offset of the declaration. After an error
/// nothing is declared.
#[tactic(auto, using(crate::proofs::Numbers::as_many_types))]
pub(crate) fn declare_parameter(
    env: &mut Environment,
    from: u32,
    name: &[u8],
    place: u32,
    ty: TypeId,
) -> Result<(), AnnotationError>
    requires { ty.0 < length (declared_by env.old).types }
    ensures { Tells (λ e _. declared_by env.new ≡ record (declared_by env.old) { env = e })
        (with_parameter env.old.env from place (Some name.now) (at (declared_by env.old).types ty)) result }
{
    match env.declare(from, name, Meaning::Local(place, ty)) {
        Ok(()) => Ok(()),
        Err(error) => Err(in_annotation(error)),
    }
}
