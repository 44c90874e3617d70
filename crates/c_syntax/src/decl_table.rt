// Declarations by number.

ghost use Rattle.std.specs.Prelude.{◌≡◌, ◌<◌, ◌++◌, ◌∷◌, [], length, slice_get, Some, true, IfOk, OnOk, OnErr};
ghost use Rattle.c_syntax.specs.declared.declaration.Decl.{Decl as Declaration};
ghost use Rattle.c_syntax.specs.Alike.{AreAlike, ShareSpecifiers};

use crate::declaration::{Base, Decl, Part, Rest};
use crate::id::DeclId;
use crate::seq::Seq;
use c_lexer::Text;
use std::alloc::{AllocError, Global};
use std::marker::Model;

/// A declaration, and the first that shares its specifiers, which may be itself.
#[derive(Drop)]
pub struct Entry {
    pub decl: Decl,
    pub first: DeclId,
}

/// Declarations by number, and which of them share their specifiers. Contracts see the list of declarations.
#[derive(Drop)]
pub struct DeclTable {
    entries: Vec<Entry>,
}

impl Model for DeclTable {
    ghost use Rattle.std.specs.Coded.{codes};
    ghost use Rattle.std.specs.Prelude.{List};
    ghost use Rattle.c_syntax.specs.contracts.declaration.Value as value;
    ghost use Rattle.c_syntax.specs.declared.declaration.Decl.{Decl as Declaration};
    ghost use Rattle.c_syntax.specs.Entries.{AreLikeFirsts, decls_of};

    ghost Value = { List Declaration };

    ghost view = { λ t. decls_of t.entries.items };

    ghost coded = { Prim.hlevel (codes, value.the_row.coded) };

    ghost invariant = { λ t. AreLikeFirsts (decls_of t.entries.items) t.entries.items };
}

// The same type for one declaration more, which takes no memory. `AllocError` where 2^64 - 1 share it.
fn share_base(base: &Base) -> Result<Base, AllocError>
    ensures { IfOk result (λ b. b ≡ base.now) }
{
    match base {
        Base::Void => Ok(Base::Void),
        Base::Int { bytes, signed } => Ok(Base::Int {
            bytes: *bytes,
            signed: *signed,
        }),
        Base::Struct(tag) => Ok(Base::Struct(tag.share()?)),
    }
}

impl DeclTable {
    /// No declarations.
    pub fn new(alloc: Global) -> DeclTable
        ensures { result ≡ [] }
    {
        DeclTable {
            entries: Vec::new(alloc),
        }
    }

    /// How many there are.
    pub fn len(&self) -> usize
        ensures { result ≡ length self.now }
    {
        self.entries.len()
    }

    /// The declaration of this number.
    pub fn get(&self, id: DeclId) -> &Decl
        requires inside { id.0 < length self.now }
        ensures node { slice_get self.now id.0 ≡ Some result.now }
    {
        &self.entries[id.0 as usize].decl
    }

    /// Whether the declarations of these numbers are known to share their specifiers.
    #[tactic(auto, using(crate::proofs::Entries::share_first))]
    pub fn share_specifiers(&self, a: DeclId, b: DeclId) -> bool
        requires one { a.0 < length self.now }
        requires other { b.0 < length self.now }
        ensures { result ≡ true → ShareSpecifiers self.now a b }
    {
        self.entries[a.0 as usize].first.0 == self.entries[b.0 as usize].first.0
    }

    // The number of the next one. `AllocError` where there is none, since there are 2^32.
    fn next(&self) -> Result<DeclId, AllocError>
        ensures { IfOk result (λ id. id ≡ record { 0 = length self.now }) }
    {
        let number = u32::try_from(self.entries.len()).map_err(|_| AllocError)?;
        Ok(DeclId(number))
    }

    // Puts one more after the others, with the specifiers of that of the number `first`, which may be itself.
    fn put(&mut self, decl: Decl, first: DeclId) -> Result<(), AllocError>
        requires like { AreAlike (Some decl) (slice_get (self.old ++ decl ∷ []) first.0) }
        ensures added { OnOk result (self.new ≡ self.old ++ decl ∷ []) }
        ensures err { OnErr result (self.new ≡ self.old) }
    {
        self.entries.push(Entry { decl, first })?;
        Ok(())
    }

    /// Puts one more after the others, which shares nothing with them. Answers its number.
    ///
    /// `AllocError` where there is no memory for it, or no number since there are 2^32. Then none is put.
    #[tactic(auto, using(crate::proofs::Entries::like_itself))]
    pub fn push(&mut self, decl: Decl) -> Result<DeclId, AllocError>
        ensures number { IfOk result (λ id. id ≡ record { 0 = length self.old }) }
        ensures added { OnOk result (self.new ≡ self.old ++ decl ∷ []) }
        ensures err { OnErr result (self.new ≡ self.old) }
    {
        let id = self.next()?;
        self.put(decl, id)?;
        Ok(id)
    }

    /// Puts one more after the others, with the specifiers of that of the number `like`. Answers its number.
    ///
    /// `AllocError` where there is no memory for it, or no number since there are 2^32. Then none is put.
    pub fn push_like(
        &mut self,
        like: DeclId,
        from: u32,
        parts: Seq<Part>,
        name: Option<Text>,
        rest: Rest,
    ) -> Result<DeclId, AllocError>
        requires inside { like.0 < length self.old }
        ensures number { IfOk result (λ id. id ≡ record { 0 = length self.old }) }
        ensures added { (d : Declaration) → slice_get self.old like.0 ≡ Some d →
            OnOk result (self.new ≡ self.old ++ record d {
              from = from;
              parts = parts;
              name = name;
              rest = rest;
            } ∷ []) }
        ensures err { OnErr result (self.new ≡ self.old) }
    {
        let id = self.next()?;
        let other = &self.entries[like.0 as usize];
        let first = other.first;
        let annots = other.decl.annots.share()?;
        let base = share_base(&other.decl.base)?;
        let decl = Decl {
            from,
            annots,
            base,
            parts,
            name,
            rest,
        };
        self.put(decl, first)?;
        Ok(id)
    }
}
