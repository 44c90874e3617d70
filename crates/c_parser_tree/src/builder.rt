// The nodes so far, and the pieces that wait.

ghost use Rattle.std.specs.Prelude.{◌≡◌, ◌∷◌, ◌++◌, [], length, IfOk, IfErr, OnOk, reverse};
ghost use Rattle.c_parser_tree.specs.IsMade.{Makes, IsLike, IsNewest};
ghost use Rattle.c_parser_tree.specs.Built.{put_expr, put_stmt, put_decl};
ghost use Rattle.c_parser_tree.specs.declared.piece.Shared.TheVariants as shares;
ghost use Rattle.c_parser_tree.specs.Seen.{nodes_seen, stack_seen};
ghost use Rattle.c_parser_tree.specs.Stacks.{no_pieces};
ghost use Rattle.c_parser_tree.specs.Nodes.{with_decl, with_stmt, with_expr, no_nodes};

use crate::piece::{Declarator, Pieces, Shared};
use c_syntax::{
    Annot, Base, Decl, DeclId, DeclTable, Expr, ExprId, ExprKind, Rest, Seq, SharedSeq, Stmt,
    StmtId, StmtKind,
};
use std::alloc::{AllocError, Global};

/// Why actions have no tree.
#[derive(Drop)]
pub enum BuildError {
    /// An action doesn't find what it takes, or the last leaves something else than a source.
    Unfit,
    /// Also where a source would have 2^32 nodes of a kind or more, which no number names.
    Memory,
}

impl From<AllocError> for BuildError {
    ghost use Rattle.c_parser_tree.specs.declared.builder.BuildError.TheVariants.{Memory};

    ghost from_gives = { λ _ e. e ≡ Memory };

    fn from(error: AllocError) -> Self {
        let _ = error;
        BuildError::Memory
    }
}

/// The nodes so far, and the pieces that wait.
#[derive(Drop)]
pub struct Builder {
    pub alloc: Global,
    pub decls: DeclTable,
    pub stmts: Vec<Stmt>,
    pub exprs: Vec<Expr>,
    pub pieces: Pieces,
}

/// Puts an item at the end.
pub fn append<T: Drop>(items: &mut Vec<T>, item: T) -> Result<(), BuildError>
    ensures items { OnOk result (items.new.items ≡ items.old.items ++ item ∷ []) }
    ensures memory { IfErr result (λ e. e ≡ BuildError.Memory) }
{
    items.push(item).map_err(AllocError::from)?;
    Ok(())
}

/// The last item, taken off.
pub fn take_newest<T: Drop>(items: &mut Vec<T>) -> Result<T, BuildError>
    ensures { IsNewest result items.old.items items.new.items }
{
    match items.pop() {
        Some(item) => Ok(item),
        None => Err(BuildError::Unfit),
    }
}

/// The list with one more at its end.
pub fn with_last<T: Drop>(items: Seq<T>, last: T) -> Result<Seq<T>, BuildError>
    ensures items { IfOk result (λ s. s ≡ items ++ last ∷ []) }
    ensures memory { IfErr result (λ e. e ≡ BuildError.Memory) }
{
    let mut items = items.into_vec();
    append(&mut items, last)?;
    Ok(Seq::from(items))
}

/// No items.
pub fn empty<T>(alloc: Global) -> Seq<T>
    ensures { result ≡ [] }
{
    Seq::from(Vec::new(alloc))
}

/// The list from back to prefix.
fn reversed<T>(items: Seq<T>) -> Seq<T>
    ensures { result ≡ reverse items }
{
    let mut items = items.into_vec();
    items.reverse();
    Seq::from(items)
}

/// The number of the node after so many.
fn next_number(count: usize) -> Result<u32, BuildError>
    ensures number { IfOk result (λ n. n ≡ count) }
    ensures memory { IfErr result (λ e. e ≡ BuildError.Memory) }
{
    match u32::try_from(count) {
        Ok(number) => Ok(number),
        Err(_) => Err(BuildError::Memory),
    }
}

impl Builder {
    /// Nothing has been built, and there is room for so many expressions. `Memory` where there is no memory for them.
    #[tactic(auto, unfolding(crate::specs::Seen::nodes_seen, crate::specs::Seen::stack_seen))]
    pub fn new(alloc: Global, exprs: usize) -> Result<Builder, BuildError>
        ensures nodes { IfOk result (λ b. nodes_seen b ≡ no_nodes) }
        ensures stack { IfOk result (λ b. stack_seen b ≡ no_pieces) }
        ensures memory { IfErr result (λ e. e ≡ BuildError.Memory) }
    {
        Ok(Builder {
            alloc,
            decls: DeclTable::new(alloc),
            stmts: Vec::new(alloc),
            exprs: Vec::with_capacity(alloc, exprs)?,
            pieces: Pieces::new(alloc),
        })
    }

    /// A new expression.
    #[inline(always)]
    #[tactic(auto, unfolding(crate::specs::Seen::nodes_seen, crate::specs::Seen::stack_seen))]
    fn new_expr(&mut self, expr: Expr) -> Result<ExprId, BuildError>
        ensures number { IfOk result (λ i. i ≡ record { 0 = length (nodes_seen self.old).exprs }) }
        ensures nodes { OnOk result (nodes_seen self.new ≡ with_expr (nodes_seen self.old) expr) }
        ensures stack { OnOk result (stack_seen self.new ≡ stack_seen self.old) }
        ensures memory { IfErr result (λ e. e ≡ BuildError.Memory) }
    {
        let number = next_number(self.exprs.len())?;
        append(&mut self.exprs, expr)?;
        Ok(ExprId(number))
    }

    /// A new statement.
    #[tactic(auto, unfolding(crate::specs::Seen::nodes_seen, crate::specs::Seen::stack_seen))]
    fn new_stmt(&mut self, stmt: Stmt) -> Result<StmtId, BuildError>
        ensures number { IfOk result (λ i. i ≡ record { 0 = length (nodes_seen self.old).stmts }) }
        ensures nodes { OnOk result (nodes_seen self.new ≡ with_stmt (nodes_seen self.old) stmt) }
        ensures stack { OnOk result (stack_seen self.new ≡ stack_seen self.old) }
        ensures memory { IfErr result (λ e. e ≡ BuildError.Memory) }
    {
        let number = next_number(self.stmts.len())?;
        append(&mut self.stmts, stmt)?;
        Ok(StmtId(number))
    }

    /// A new declaration.
    #[tactic(auto, unfolding(crate::specs::Seen::nodes_seen, crate::specs::Seen::stack_seen))]
    pub fn new_decl(&mut self, decl: Decl) -> Result<DeclId, BuildError>
        ensures number { IfOk result (λ i. i ≡ record { 0 = length (nodes_seen self.old).decls }) }
        ensures nodes { OnOk result (nodes_seen self.new ≡ with_decl (nodes_seen self.old) decl) }
        ensures stack { OnOk result (stack_seen self.new ≡ stack_seen self.old) }
        ensures memory { IfErr result (λ e. e ≡ BuildError.Memory) }
    {
        let id = self.decls.push(decl)?;
        Ok(id)
    }

    /// Puts a new expression on top.
    #[inline(always)]
    pub fn put_expr(&mut self, from: u32, kind: ExprKind) -> Result<(), BuildError>
        ensures { Makes result self.old self.new (λ N. put_expr N from kind) }
    {
        let id = self.new_expr(Expr { from, kind })?;
        self.put_expr_id(id)
    }

    /// Puts a new statement on top.
    pub fn put_stmt(&mut self, from: u32, kind: StmtKind) -> Result<(), BuildError>
        ensures { Makes result self.old self.new (λ N. put_stmt N from kind) }
    {
        let id = self.new_stmt(Stmt { from, kind })?;
        self.put_stmt_id(id)
    }

    /// A new declaration, with the annotations and the type of that of this number, which has to be there.
    fn new_decl_like(
        &mut self,
        declarator: Declarator,
        first: DeclId,
        rest: Rest,
    ) -> Result<DeclId, BuildError>
        ensures { IsLike first declarator rest self.old self.new result }
    {
        if first.0 as usize >= self.decls.len() {
            return Err(BuildError::Unfit);
        }
        let parts = reversed(declarator.parts);
        let id = self
            .decls
            .push_like(first, declarator.from, parts, declarator.name, rest)?;
        Ok(id)
    }

    /// Puts on top a new declaration with these annotations and this type, above what the names after it share with it.
    fn put_first_decl(
        &mut self,
        declarator: Declarator,
        annots: SharedSeq<Annot>,
        base: Base,
        rest: Rest,
    ) -> Result<(), BuildError>
        ensures { Makes result self.old self.new
            (λ N. put_decl N declarator (shares.Words annots base) rest) }
    {
        let id = self.new_decl(Decl {
            from: declarator.from,
            annots,
            base,
            parts: reversed(declarator.parts),
            name: declarator.name,
            rest,
        })?;
        self.put_shared(Shared::Like(id))?;
        self.put_decl_id(id)
    }

    /// Puts on top a new declaration with the annotations and the type of that of this number, above what the names after it share.
    fn put_decl_like(
        &mut self,
        declarator: Declarator,
        first: DeclId,
        rest: Rest,
    ) -> Result<(), BuildError>
        ensures { Makes result self.old self.new (λ N. put_decl N declarator (shares.Like first) rest) }
    {
        let id = self.new_decl_like(declarator, first, rest)?;
        self.put_shared(Shared::Like(first))?;
        self.put_decl_id(id)
    }

    /// Puts on top a new declaration, above what the names after it share with it.
    pub fn put_decl(
        &mut self,
        declarator: Declarator,
        shared: Shared,
        rest: Rest,
    ) -> Result<(), BuildError>
        ensures { Makes result self.old self.new (λ N. put_decl N declarator shared rest) }
    {
        match shared {
            Shared::Words { annots, base } => self.put_first_decl(declarator, annots, base, rest),
            Shared::Like(first) => self.put_decl_like(declarator, first, rest),
        }
    }
}
