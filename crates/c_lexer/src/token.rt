// The kinds of token.

use crate::text::Text;

/// A keyword (C11 6.4.1).
#[derive(Clone, Copy)]
pub enum Word {
    Void,
    Char,
    Short,
    Int,
    Long,
    Signed,
    Unsigned,
    Struct,
    Const,
    Extern,
    Static,
    If,
    Else,
    While,
    For,
    Do,
    Break,
    Continue,
    Return,
    Sizeof,
    Typedef,
    Enum,
    Union,
    Switch,
    Case,
    Default,
    Goto,
    Float,
    Double,
    Volatile,
    Register,
    Inline,
    Restrict,
    Auto,
}

/// A sign, which C11 6.4.6 calls a punctuator.
#[derive(Clone, Copy)]
pub enum Sign {
    /// `[`
    OpenBracket,
    /// `]`
    CloseBracket,
    /// `(`
    OpenParenthesis,
    /// `)`
    CloseParenthesis,
    /// `{`
    OpenBrace,
    /// `}`
    CloseBrace,
    /// `.`
    Dot,
    /// `->`
    Arrow,
    /// `++`
    Increment,
    /// `--`
    Decrement,
    /// `&`
    Ampersand,
    /// `*`
    Star,
    /// `+`
    Plus,
    /// `-`
    Minus,
    /// `~`
    Tilde,
    /// `!`
    Exclamation,
    /// `/`
    Slash,
    /// `%`
    Percent,
    /// `<<`
    ShiftLeft,
    /// `>>`
    ShiftRight,
    /// `<`
    Less,
    /// `>`
    Greater,
    /// `<=`
    LessEqual,
    /// `>=`
    GreaterEqual,
    /// `==`
    Equal,
    /// `!=`
    NotEqual,
    /// `^`
    Caret,
    /// `|`
    Bar,
    /// `&&`
    AndAnd,
    /// `||`
    OrOr,
    /// `?`
    Question,
    /// `:`
    Colon,
    /// `;`
    Semicolon,
    /// `=`
    Assign,
    /// `*=`
    StarAssign,
    /// `/=`
    SlashAssign,
    /// `%=`
    PercentAssign,
    /// `+=`
    PlusAssign,
    /// `-=`
    MinusAssign,
    /// `<<=`
    ShiftLeftAssign,
    /// `>>=`
    ShiftRightAssign,
    /// `&=`
    AmpersandAssign,
    /// `^=`
    CaretAssign,
    /// `|=`
    BarAssign,
    /// `,`
    Comma,
}

/// The suffix of a number, in either case and order (C11 6.4.4.1).
#[derive(Clone, Copy)]
pub enum Suffix {
    /// No suffix.
    Plain,
    /// `u`
    U,
    /// `l`
    L,
    /// `u` and `l`
    UL,
}

/// What a token is.
#[derive(Drop)]
pub enum Kind {
    /// A name that is no keyword.
    Name(Text),
    /// A keyword.
    Word(Word),
    /// A number, which is `decimal` unless it begins with `0`.
    Number {
        suffix: Suffix,
        decimal: bool,
        value: u64,
    },
    /// A character, by its value as a signed char.
    Char(i8),
    /// A string, without its ending zero.
    Text(Text),
    /// A sign.
    Sign(Sign),
}

/// A token, and the offsets in the source of its first byte and of the byte after its last.
#[derive(Drop)]
pub struct Token {
    pub kind: Kind,
    pub from: u32,
    pub to: u32,
}
