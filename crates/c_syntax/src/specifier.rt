// The words that stand before a declarator.

use c_lexer::Text;

/// The words of a type but `signed` and `unsigned`.
#[derive(Drop)]
pub enum Core {
    Absent,
    Void,
    Char,
    Short,
    ShortInt,
    Int,
    Long,
    LongInt,
    Struct(Text),
}

/// Whether `signed` or `unsigned` stands among the words.
#[derive(Clone, Copy)]
pub enum Signedness {
    Absent,
    Signed,
    Unsigned,
}

/// The words so far (C11 6.7).
#[derive(Drop)]
pub struct Specifiers {
    pub core: Core,
    pub sign: Signedness,
    /// `extern` or `static` stands among them.
    pub storage: bool,
}
