//! What is declared at a place of a source.

ghost use Rattle.std.specs.Prelude.{◌≡◌, ◌∷◌, ◌++◌, [], false, true, IfOk, OnErr, OnOk};
ghost use Rattle.c_types_nodes.specs.Lists.{AreNodes};
ghost use Rattle.c_types_nodes.specs.Tables.{IsNode};

use crate::meaning::Meaning;
use c_scopes::Scopes;
use c_types_nodes::{NodeId, NodeIds, TypedTable};
use c_types_structs::{Structs, Tags};
use std::alloc::{AllocError, Global};
use std::marker::Model;
use std::mem;

/// The tags, structs and names that are declared at a place of a source, and the table of types and typed nodes that they stand
/// in.
///
/// Contracts see the table, the environment that all this stands for, and what is noted: whether an object was found that is too
/// large, and the nodes that stand unevaluated.
#[derive(Drop)]
pub struct Environment {
    pub(crate) alloc: Global,
    pub(crate) table: TypedTable,
    pub(crate) tags: Tags,
    pub(crate) structs: Structs,
    pub(crate) scopes: Scopes<Meaning>,
    pub(crate) found_large: bool,
    pub(crate) unevaluated: Vec<NodeId>,
}

impl Model for Environment {
    ghost use Rattle.std.specs.Coded.{codes};
    ghost use Rattle.c_types_environment.specs.TypeCodes.{type_code};
    ghost use Rattle.c_types_nodes.specs.Lists.{AreNodes};
    ghost use Rattle.c_types_environment.specs.States.{IsSound, State, state_by};

    ghost Value = { State };

    ghost coded = { Prim.hlevel (codes, type_code) };

    ghost view = { λ e. state_by e.table e.tags e.structs e.scopes e.found_large e.unevaluated.items };

    ghost invariant = { λ e. IsSound e.table.types e.structs e.scopes ×
        AreNodes e.table e.unevaluated.items };
}

impl Environment {
    ghost use Rattle.std.specs.Prelude.{length, map};
    ghost use Rattle.std.specs.List.{All};
    ghost use Rattle.c_types_model.specs.Layouts.{capped_extent};
    ghost use Rattle.c_types_table.specs.Tables.{types_of};
    ghost use Rattle.c_types_rules.specs.Environment.{extents};
    ghost use Rattle.c_types_environment.specs.Reading.{IsMemberBelow, structs_by};

    /// One scope without names, and no structs yet. `tags` has those of all structs that the source defines.
    ///
    /// `AllocError` where there is no memory.
    pub fn new(alloc: Global, tags: Tags) -> Result<Environment, AllocError>
        ensures table { IfOk result (λ e. e.table.entries ≡ []) }
        ensures declared { IfOk result (λ e. e.env ≡ record {
          tags = tags;
          structs = [];
          scopes =
              [] ∷ [];
        }) }
        ensures small { IfOk result (λ e. e.found_large ≡ false) }
        ensures evaluated { IfOk result (λ e. e.unevaluated ≡ []) }
    {
        Ok(Environment {
            alloc,
            table: TypedTable::new(alloc)?,
            tags,
            structs: Structs::new(alloc),
            scopes: Scopes::new(alloc),
            found_large: false,
            unevaluated: Vec::new(alloc),
        })
    }

    /// The allocator that it takes memory from.
    pub fn alloc(&self) -> Global {
        self.alloc
    }

    /// The types and typed nodes, and the structs by number, where names aren't needed any more. A size past 2^64 - 1 counts as
    /// 2^64 - 1.
    pub fn into_parts(self) -> (TypedTable, Structs)
        ensures table { result.0 ≡ self.table }
        ensures structs { structs_by (types_of self.table.types) [] result.1.members ≡ self.env.structs }
        ensures extents { result.1.extents ≡ map capped_extent (extents self.env) }
        ensures members { All (All (IsMemberBelow (length self.table.types))) result.1.members }
    {
        (self.table, self.structs)
    }

    /// Whether an object was found that is too large.
    pub fn found_large(&self) -> bool
        ensures { result ≡ self.now.found_large }
    {
        self.found_large
    }

    /// Notes that an object is too large.
    pub fn note_large(&mut self)
        ensures { self.new ≡ record self.old { found_large = true } }
    {
        self.found_large = true;
    }

    /// Notes that a node stands unevaluated. `AllocError` where there is no memory for it. Then nothing is noted.
    pub fn note_unevaluated(&mut self, node: NodeId) -> Result<(), AllocError>
        requires { IsNode self.old.table node }
        ensures noted { OnOk result (self.new ≡
            record self.old { unevaluated = self.old.unevaluated ++ node ∷ [] }) }
        ensures err { OnErr result (self.new ≡ self.old) }
    {
        self.unevaluated.push(node).map_err(AllocError::from)
    }

    /// Takes out the nodes that stand unevaluated so far, so that those of a part can be told. `part_unevaluated` puts them back.
    pub fn set_aside(&mut self) -> Vec<NodeId>
        ensures taken { self.new ≡ record self.old { unevaluated = [] } }
        ensures before { result.items ≡ self.old.unevaluated }
        ensures inside { AreNodes self.old.table result.items }
    {
        mem::replace(&mut self.unevaluated, Vec::new(self.alloc))
    }

    /// The nodes that stand unevaluated in a part, where those before it were set aside.
    pub fn part_unevaluated(&mut self, before: Vec<NodeId>) -> NodeIds
        requires { AreNodes self.old.table before.items }
        ensures back { self.new ≡ record self.old { unevaluated = before.items } }
        ensures part { result ≡ self.old.unevaluated }
        ensures inside { AreNodes self.old.table result }
    {
        NodeIds::from(mem::replace(&mut self.unevaluated, before))
    }
}
