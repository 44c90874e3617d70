// What actions take and make, with numbers of nodes in place of trees.

ghost use Rattle.std.specs.Prelude.{◌≡◌};
ghost use Rattle.c_parser_tree.specs.Seen.{pieces_of};
ghost use Rattle.c_parser_tree.specs.Stacks.{no_pieces};

use c_lexer::Text;
use c_syntax::{
    Annot, Atom, Base, DeclId, Entry, ExprId, First, Item, Part, Seq, SharedSeq, StmtId, Value,
};
use std::alloc::Global;

/// A declarator and the offset of its name, or of its declaration. Its parts go from the nearest to the name
/// to the farthest.
#[derive(Drop)]
pub struct Declarator {
    pub parts: Seq<Part>,
    pub name: Option<Text>,
    pub from: u32,
}

/// What the names of a declaration share.
#[derive(Drop)]
pub enum Shared {
    /// Annotations and a type, before the first name.
    Words {
        annots: SharedSeq<Annot>,
        base: Base,
    },
    /// Those of the first name, whose declaration has this number.
    Like(DeclId),
}

/// The name of a struct that is being defined, and the definition's offset.
#[derive(Drop)]
pub struct Tag {
    pub from: u32,
    pub name: Text,
}

/// The pieces of a source that wait: a stack of each kind, the newest last.
#[derive(Drop)]
pub struct Pieces {
    pub exprs: Vec<ExprId>,
    pub expr_lists: Vec<Seq<ExprId>>,
    pub maybes: Vec<Option<ExprId>>,
    pub declarators: Vec<Declarator>,
    /// What the names of the declarations that are open share.
    pub shared: Vec<Shared>,
    pub decls: Vec<DeclId>,
    pub decl_lists: Vec<Seq<DeclId>>,
    pub annot_lists: Vec<Seq<Annot>>,
    /// Annotations whose items may not all be there.
    pub annots: Vec<Annot>,
    pub items: Vec<Item>,
    pub atoms: Vec<Atom>,
    pub values: Vec<Value>,
    pub value_lists: Vec<Seq<Value>>,
    pub entry_lists: Vec<Seq<Entry>>,
    pub stmts: Vec<StmtId>,
    pub firsts: Vec<First>,
    pub tags: Vec<Tag>,
}

impl Pieces {
    /// No pieces.
    pub fn new(alloc: Global) -> Pieces
        ensures { pieces_of result ≡ no_pieces }
    {
        Pieces {
            exprs: Vec::new(alloc),
            expr_lists: Vec::new(alloc),
            maybes: Vec::new(alloc),
            declarators: Vec::new(alloc),
            shared: Vec::new(alloc),
            decls: Vec::new(alloc),
            decl_lists: Vec::new(alloc),
            annot_lists: Vec::new(alloc),
            annots: Vec::new(alloc),
            items: Vec::new(alloc),
            atoms: Vec::new(alloc),
            values: Vec::new(alloc),
            value_lists: Vec::new(alloc),
            entry_lists: Vec::new(alloc),
            stmts: Vec::new(alloc),
            firsts: Vec::new(alloc),
            tags: Vec::new(alloc),
        }
    }
}
