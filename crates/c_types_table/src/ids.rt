//! Names of types.

ghost use Rattle.std.specs.Prelude.{◌≡◌, List, nat_eq};
ghost use Rattle.std.proofs.Common.{rules};
ghost use Rattle.std.specs.Cmp.Lexicographic.{pointwise};
ghost use Rattle.std.specs.Cmp.Rules.{comparing};
ghost use Rattle.std.specs.Hash as fed;
ghost use Rattle.std.specs.Ordering.{on};
ghost use Rattle.c_types_table.specs.Alike.{ids_decide};
ghost use Rattle.c_types_table.specs.Hashes.{hashed_id};
ghost use Rattle.c_types_table.specs.declared.ids.TypeId.{TypeId};

use std::hash::{Hash, Hasher};
use std::marker::Model;

/// Names a type of a table.
#[derive(Clone, Copy, PartialEq, Eq, Hash)]
pub struct TypeId(pub u32);

/// Names a struct, by the number of its definition in the order of the source.
#[derive(Clone, Copy, PartialEq, Eq, Hash)]
pub struct StructId(pub u32);

/// Types of a table, as those of parameters. Contracts see the list of their numbers.
#[derive(Drop)]
pub struct TypeIds {
    items: Vec<TypeId>,
}

impl Model for TypeIds {
    ghost use Rattle.std.specs.Prelude.{List};
    ghost use Rattle.c_types_table.specs.declared.ids.TypeId.{TypeId};

    ghost Value = { List TypeId };

    ghost view = { λ l. l.items.items };
}

impl TypeIds {
    /// The types, in order.
    pub fn as_slice(&self) -> &[TypeId]
        ensures { result.now ≡ self.now }
    {
        &self.items
    }
}

impl From<Vec<TypeId>> for TypeIds {
    ghost from_gives = { λ v l. l ≡ v.items };

    fn from(items: Vec<TypeId>) -> TypeIds {
        TypeIds { items }
    }
}

impl PartialEq for TypeIds {
    ghost eq = { pointwise (on (λ t. t.0) nat_eq) };

    ghost laws = { Prim.search (comparing, rules) };

    fn eq(&self, other: &TypeIds) -> bool {
        self.items == other.items
    }
}

impl Eq for TypeIds {
    ghost laws = { Prim.search (comparing, rules) };
}

impl Hash for TypeIds {
    ghost hash_input = { fed.slice hashed_id };

    ghost respects_eq = { (fed.same_Alike (fed.slice hashed_id) ids_decide).fed };

    fn hash<H: Hasher>(&self, state: &mut H) {
        self.items.hash(state);
    }
}
