//! The tags of the structs that a source defines (C11 6.7.2.3).

ghost use Rattle.std.specs.Prelude.{◌≡◌, IfOk};
ghost use Rattle.c_syntax.specs.Stands.{StandDecls};
ghost use Rattle.c_syntax.specs.Syntax.{Decls};
ghost use Rattle.c_types_rules.specs.Sources.{tags_of as tags_by_rules};
ghost use Rattle.std.specs.Option.{option_copied};
ghost use Rattle.c_types_expressions.specs.Walks.{AreDecls};
ghost use Rattle.c_types.specs.Pieces.{defined_tag as tag_by_parts};

use c_syntax::{Base, Decl, DeclId, Rest, Tree};
use c_types_structs::Tags;
use std::alloc::{AllocError, Global};

/// The tag of a declaration that defines a struct; `None` of any other.
pub(crate) fn defined_tag(decl: &Decl) -> Option<&[u8]>
    ensures { option_copied result ≡ tag_by_parts decl.now.base decl.now.rest }
{
    match (&decl.base, &decl.rest) {
        (Base::Struct(tag), Rest::Members(_)) => Some(tag.as_slice()),
        _ => None,
    }
}

/// The tags of the structs that declarations define, in order. `AllocError` where there is no memory for them.
pub(crate) fn tags_of(alloc: Global, tree: &Tree, ids: &[DeclId]) -> Result<Tags, AllocError>
    requires { AreDecls tree.now ids.now }
    ensures { (ds : Decls) → StandDecls tree.now ids.now ds →
        IfOk result (λ tags. tags ≡ tags_by_rules ds) }
{
    let mut tags = Tags::new(alloc);
    for id in ids {
        if let Some(tag) = defined_tag(tree.decl(*id)) {
            tags.add(tag)?;
        }
    }
    Ok(tags)
}
