// The constructs that are open, and what comes next.

use c_lexer::Sign;

/// Whether a declarator has a name.
#[derive(Clone, Copy)]
pub enum Naming {
    Always,
    Never,
    Either,
}

/// What the specifiers after annotations are of.
#[derive(Clone, Copy)]
pub enum Target {
    Top,
    /// A parameter that begins there.
    Param(u32),
}

/// Where names are declared.
#[derive(Clone, Copy)]
pub enum DeclaredIn {
    Top,
    Local,
    /// In the first part of a `for` that begins there.
    For(u32),
    Member,
}

/// A construct that is open. A number is the offset of its first token, or of the sign that it is named
/// after.
#[derive(Clone, Copy)]
pub enum Frame {
    /// An expression of this level or a tighter one, which began there.
    Climb(u8, u32),
    /// The right operand of a sign of this level.
    Binary(u8, u32, Sign),
    Assign(u32, Sign),
    Middle(u32),
    Last(u32),
    Group(u32),
    Index(u32),
    Args(u32),
    Prefix(u32, Sign),
    Sizeof(u32),
    SizeofType(u32),
    CastType(u32),
    Cast(u32),
    Pointer(u32),
    Grouped,
    Length(u32),
    Params(u32),
    /// Names that share a type; the flag says that none of them has been read.
    Names(DeclaredIn, bool),
    /// The value of one of them.
    Init(DeclaredIn),
    Annots(Target),
    Items,
    FirstFactor(u32),
    SecondFactor(u32),
    SizeofAtom,
    Plain,
    Braces(u32),
    Expression(u32),
    Block(u32),
    IfCond(u32),
    IfThen(u32),
    IfElse(u32),
    WhileCond(u32),
    WhileBody(u32),
    DoBody(u32),
    DoCond(u32),
    ForFirst(u32),
    ForTest(u32),
    ForStep(u32),
    ForBody(u32),
    Return(u32),
    Body,
    Struct,
}

/// What comes next.
#[derive(Clone, Copy)]
pub enum Next {
    /// An operand is to be read.
    Operand,
    /// What follows an expression of level 15, which began there.
    After(u32),
    /// An operand of this level has been read.
    Done(u8),
    /// An expression of the level that was wanted has been read.
    Value,
    TypeName,
    /// A declarator is to be read, of a declaration that began there.
    Declr(Naming, u32),
    /// What follows a direct declarator.
    Direct,
    DeclrDone,
    Param,
    Specs(Target),
    /// Names with a type are to be read.
    Names(DeclaredIn),
    Annot,
    AnnotDone,
    Item,
    Atom,
    AtomDone,
    ItemDone,
    Initial,
    ValueDone,
    Stmt,
    StmtDone,
    Entry,
    ForFirst(u32),
    ForTest(u32),
    ForStep(u32),
    /// Another member, or the end of the struct.
    MemberEnd,
    Top,
    Fail,
    End,
}
