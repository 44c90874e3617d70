// Declarations.

use crate::id::{DeclId, ExprId, StmtId};
use crate::seq::Seq;
use crate::shared::SharedSeq;
use c_lexer::Text;

/// The type that the words of a declaration make (C11 6.7.2).
#[derive(Drop)]
pub enum Base {
    Void,
    /// An integer type of 1, 2, 4 or 8 bytes.
    Int { bytes: u8, signed: bool },
    /// A struct, by its tag.
    Struct(Text),
}

/// A factor of an annotation's item.
#[derive(Drop)]
pub enum Atom {
    Name(Text),
    Number(u64),
    Return,
    Sizeof(DeclId),
}

/// An item of an annotation, which is a factor or the product of two.
#[derive(Drop)]
pub struct Item {
    pub from: u32,
    pub a: Atom,
    pub b: Option<Atom>,
}

/// An annotation with its items.
#[derive(Drop)]
pub struct Annot {
    pub from: u32,
    pub name: Text,
    pub items: Seq<Item>,
}

/// What a part of a declarator makes of the type: a pointer, an array of this length, a function with these parameters.
#[derive(Drop)]
pub enum PartKind {
    Pointer,
    Array(ExprId),
    Params(Seq<DeclId>),
}

/// A part of a declarator, and the offset of its `*`, `[` or `(`.
#[derive(Drop)]
pub struct Part {
    pub from: u32,
    pub kind: PartKind,
}

/// A value that a declaration gives.
#[derive(Drop)]
pub enum Value {
    Plain(ExprId),
    Braces { from: u32, values: Vec<Value> },
}

/// What follows a declarator, or is in a struct's definition.
#[derive(Drop)]
pub enum Rest {
    None,
    Value(Value),
    Body(StmtId),
    Members(Seq<DeclId>),
}

/// A declared name, a parameter, a member, a type name or a struct's definition (C11 6.7).
///
/// `from` is the offset of its name, or of its first token where it has none. `parts` go from the part farthest from
/// the name to the nearest. Names that share their specifiers share `annots` and the tag of `base`.
#[derive(Drop)]
pub struct Decl {
    pub from: u32,
    pub annots: SharedSeq<Annot>,
    pub base: Base,
    pub parts: Seq<Part>,
    pub name: Option<Text>,
    pub rest: Rest,
}
