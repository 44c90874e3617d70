// Pieces put on top.

ghost use Rattle.c_parser_tree.specs.Built.{puts, add_expr, add_decl, add_annot, add_item, add_value, add_entry};
ghost use Rattle.c_parser_tree.specs.IsMade.{Makes};
ghost use Rattle.c_parser_tree.specs.Stacks.{push_expr, push_exprs, push_maybe, push_declarator, push_shared, push_decl, push_decls, push_annots, push_annot, push_item, push_atom, push_value, push_values, push_entries, push_stmt, push_first, push_tag};

use crate::builder::{BuildError, Builder, append, with_last};
use crate::piece::{Declarator, Shared, Tag};
use c_syntax::{Annot, Atom, DeclId, Entry, ExprId, First, Item, Seq, StmtId, Value};

impl Builder {
    #[inline(always)]
    pub fn put_expr_id(&mut self, expr: ExprId) -> Result<(), BuildError>
        ensures { Makes result self.old self.new (λ N R. puts N (push_expr expr R)) }
    {
        append(&mut self.pieces.exprs, expr)
    }

    pub fn put_exprs(&mut self, exprs: Seq<ExprId>) -> Result<(), BuildError>
        ensures { Makes result self.old self.new (λ N R. puts N (push_exprs exprs R)) }
    {
        append(&mut self.pieces.expr_lists, exprs)
    }

    pub fn put_maybe(&mut self, maybe: Option<ExprId>) -> Result<(), BuildError>
        ensures { Makes result self.old self.new (λ N R. puts N (push_maybe maybe R)) }
    {
        append(&mut self.pieces.maybes, maybe)
    }

    pub fn put_declarator(&mut self, declarator: Declarator) -> Result<(), BuildError>
        ensures { Makes result self.old self.new (λ N R. puts N (push_declarator declarator R)) }
    {
        append(&mut self.pieces.declarators, declarator)
    }

    pub fn put_shared(&mut self, shared: Shared) -> Result<(), BuildError>
        ensures { Makes result self.old self.new (λ N R. puts N (push_shared shared R)) }
    {
        append(&mut self.pieces.shared, shared)
    }

    pub fn put_decl_id(&mut self, decl: DeclId) -> Result<(), BuildError>
        ensures { Makes result self.old self.new (λ N R. puts N (push_decl decl R)) }
    {
        append(&mut self.pieces.decls, decl)
    }

    pub fn put_decls(&mut self, decls: Seq<DeclId>) -> Result<(), BuildError>
        ensures { Makes result self.old self.new (λ N R. puts N (push_decls decls R)) }
    {
        append(&mut self.pieces.decl_lists, decls)
    }

    pub fn put_annots(&mut self, annots: Seq<Annot>) -> Result<(), BuildError>
        ensures { Makes result self.old self.new (λ N R. puts N (push_annots annots R)) }
    {
        append(&mut self.pieces.annot_lists, annots)
    }

    pub fn put_annot(&mut self, annot: Annot) -> Result<(), BuildError>
        ensures { Makes result self.old self.new (λ N R. puts N (push_annot annot R)) }
    {
        append(&mut self.pieces.annots, annot)
    }

    pub fn put_item(&mut self, item: Item) -> Result<(), BuildError>
        ensures { Makes result self.old self.new (λ N R. puts N (push_item item R)) }
    {
        append(&mut self.pieces.items, item)
    }

    pub fn put_atom(&mut self, atom: Atom) -> Result<(), BuildError>
        ensures { Makes result self.old self.new (λ N R. puts N (push_atom atom R)) }
    {
        append(&mut self.pieces.atoms, atom)
    }

    pub fn put_value(&mut self, value: Value) -> Result<(), BuildError>
        ensures { Makes result self.old self.new (λ N R. puts N (push_value value R)) }
    {
        append(&mut self.pieces.values, value)
    }

    pub fn put_values(&mut self, values: Seq<Value>) -> Result<(), BuildError>
        ensures { Makes result self.old self.new (λ N R. puts N (push_values values R)) }
    {
        append(&mut self.pieces.value_lists, values)
    }

    pub fn put_entries(&mut self, entries: Seq<Entry>) -> Result<(), BuildError>
        ensures { Makes result self.old self.new (λ N R. puts N (push_entries entries R)) }
    {
        append(&mut self.pieces.entry_lists, entries)
    }

    pub fn put_stmt_id(&mut self, stmt: StmtId) -> Result<(), BuildError>
        ensures { Makes result self.old self.new (λ N R. puts N (push_stmt stmt R)) }
    {
        append(&mut self.pieces.stmts, stmt)
    }

    pub fn put_first(&mut self, first: First) -> Result<(), BuildError>
        ensures { Makes result self.old self.new (λ N R. puts N (push_first first R)) }
    {
        append(&mut self.pieces.firsts, first)
    }

    pub fn put_tag(&mut self, tag: Tag) -> Result<(), BuildError>
        ensures { Makes result self.old self.new (λ N R. puts N (push_tag tag R)) }
    {
        append(&mut self.pieces.tags, tag)
    }

    /// The list of expressions on top gets one more.
    pub fn add_expr(&mut self, last: ExprId) -> Result<(), BuildError>
        ensures { Makes result self.old self.new (λ N. add_expr N last) }
    {
        let exprs = self.pop_exprs()?;
        self.put_exprs(with_last(exprs, last)?)
    }

    /// The list of declarations on top gets one more.
    pub fn add_decl(&mut self, last: DeclId) -> Result<(), BuildError>
        ensures { Makes result self.old self.new (λ N. add_decl N last) }
    {
        let decls = self.pop_decls()?;
        self.put_decls(with_last(decls, last)?)
    }

    /// The list of annotations on top gets one more.
    pub fn add_annot(&mut self, last: Annot) -> Result<(), BuildError>
        ensures { Makes result self.old self.new (λ N. add_annot N last) }
    {
        let annots = self.pop_annots()?;
        self.put_annots(with_last(annots, last)?)
    }

    /// The list of values on top gets one more.
    pub fn add_value(&mut self, last: Value) -> Result<(), BuildError>
        ensures { Makes result self.old self.new (λ N. add_value N last) }
    {
        let values = self.pop_values()?;
        self.put_values(with_last(values, last)?)
    }

    /// The list of entries on top gets one more.
    pub fn add_entry(&mut self, last: Entry) -> Result<(), BuildError>
        ensures { Makes result self.old self.new (λ N. add_entry N last) }
    {
        let entries = self.pop_entries()?;
        self.put_entries(with_last(entries, last)?)
    }

    /// The annotation on top gets one more item.
    pub fn add_item(&mut self, last: Item) -> Result<(), BuildError>
        ensures { Makes result self.old self.new (λ N. add_item N last) }
    {
        let annot = self.pop_annot()?;
        let items = with_last(annot.items, last)?;
        self.put_annot(Annot {
            from: annot.from,
            name: annot.name,
            items,
        })
    }
}
