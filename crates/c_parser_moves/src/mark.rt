// What the parser tells tokens apart by.

ghost use Rattle.std.specs.Prelude.{◌≡◌};
ghost use Rattle.c_parser_moves.specs.Marks.{mark_of, mark_at, after_sign, after_at, begin_of, IsLow};
ghost use Rattle.c_syntax.specs.Levels.{is_prefix, is_type_word, is_type_kind, begins_type, opens_type, lone_void, begins_else, from_of};

use c_lexer::{Kind, Sign, Token, Word};

/// A sign that ends or divides constructs.
#[derive(Clone, Copy)]
pub enum Punctuator {
    Open,
    Close,
    OpenBracket,
    CloseBracket,
    OpenBrace,
    CloseBrace,
    Comma,
    Colon,
    Semicolon,
    Star,
    Assign,
    Other,
}

/// What a token does after an operand.
#[derive(Clone, Copy)]
pub enum After {
    Binary(u8, Sign),
    Assign(Sign),
    Question,
    Index,
    Call,
    Dot,
    Arrow,
    Postfix(Sign),
    Other,
}

/// What a token begins, where a statement is wanted.
#[derive(Clone, Copy)]
pub enum Begin {
    Empty,
    Block,
    If,
    While,
    Do,
    For,
    Break,
    Continue,
    Return,
    Other,
}

pub fn mark_kind(kind: &Kind) -> Punctuator
    ensures { result ≡ mark_of kind.now }
{
    match kind {
        Kind::Sign(Sign::OpenParenthesis) => Punctuator::Open,
        Kind::Sign(Sign::CloseParenthesis) => Punctuator::Close,
        Kind::Sign(Sign::OpenBracket) => Punctuator::OpenBracket,
        Kind::Sign(Sign::CloseBracket) => Punctuator::CloseBracket,
        Kind::Sign(Sign::OpenBrace) => Punctuator::OpenBrace,
        Kind::Sign(Sign::CloseBrace) => Punctuator::CloseBrace,
        Kind::Sign(Sign::Comma) => Punctuator::Comma,
        Kind::Sign(Sign::Colon) => Punctuator::Colon,
        Kind::Sign(Sign::Semicolon) => Punctuator::Semicolon,
        Kind::Sign(Sign::Star) => Punctuator::Star,
        Kind::Sign(Sign::Assign) => Punctuator::Assign,
        _ => Punctuator::Other,
    }
}

pub fn mark_first(rest: &[Token]) -> Punctuator
    ensures { result ≡ mark_at rest.now }
{
    match rest {
        [first, ..] => mark_kind(&first.kind),
        [] => Punctuator::Other,
    }
}

pub fn after_operator(sign: Sign) -> After
    ensures is { result ≡ after_sign sign }
    ensures low { IsLow result }
{
    match sign {
        Sign::Comma => After::Binary(1, sign),
        Sign::Assign
        | Sign::StarAssign
        | Sign::SlashAssign
        | Sign::PercentAssign
        | Sign::PlusAssign
        | Sign::MinusAssign
        | Sign::ShiftLeftAssign
        | Sign::ShiftRightAssign
        | Sign::AmpersandAssign
        | Sign::CaretAssign
        | Sign::BarAssign => After::Assign(sign),
        Sign::Question => After::Question,
        Sign::OrOr => After::Binary(4, sign),
        Sign::AndAnd => After::Binary(5, sign),
        Sign::Bar => After::Binary(6, sign),
        Sign::Caret => After::Binary(7, sign),
        Sign::Ampersand => After::Binary(8, sign),
        Sign::Equal | Sign::NotEqual => After::Binary(9, sign),
        Sign::Less | Sign::Greater | Sign::LessEqual | Sign::GreaterEqual => {
            After::Binary(10, sign)
        },
        Sign::ShiftLeft | Sign::ShiftRight => After::Binary(11, sign),
        Sign::Plus | Sign::Minus => After::Binary(12, sign),
        Sign::Star | Sign::Slash | Sign::Percent => After::Binary(13, sign),
        Sign::OpenBracket => After::Index,
        Sign::OpenParenthesis => After::Call,
        Sign::Dot => After::Dot,
        Sign::Arrow => After::Arrow,
        Sign::Increment | Sign::Decrement => After::Postfix(sign),
        _ => After::Other,
    }
}

pub fn after_first(rest: &[Token]) -> After
    ensures is { result ≡ after_at rest.now }
    ensures low { IsLow result }
{
    match rest {
        [first, ..] => match &first.kind {
            Kind::Sign(sign) => after_operator(*sign),
            _ => After::Other,
        },
        [] => After::Other,
    }
}

pub fn begin_kind(kind: &Kind) -> Begin
    ensures { result ≡ begin_of kind.now }
{
    match kind {
        Kind::Sign(Sign::Semicolon) => Begin::Empty,
        Kind::Sign(Sign::OpenBrace) => Begin::Block,
        Kind::Word(Word::If) => Begin::If,
        Kind::Word(Word::While) => Begin::While,
        Kind::Word(Word::Do) => Begin::Do,
        Kind::Word(Word::For) => Begin::For,
        Kind::Word(Word::Break) => Begin::Break,
        Kind::Word(Word::Continue) => Begin::Continue,
        Kind::Word(Word::Return) => Begin::Return,
        _ => Begin::Other,
    }
}

pub fn prefix_sign(sign: Sign) -> bool
    ensures { result ≡ is_prefix sign }
{
    matches!(
        sign,
        Sign::Increment
            | Sign::Decrement
            | Sign::Ampersand
            | Sign::Star
            | Sign::Plus
            | Sign::Minus
            | Sign::Tilde
            | Sign::Exclamation
    )
}

pub fn type_word(word: Word) -> bool
    ensures { result ≡ is_type_word word }
{
    matches!(
        word,
        Word::Void
            | Word::Char
            | Word::Short
            | Word::Int
            | Word::Long
            | Word::Signed
            | Word::Unsigned
            | Word::Struct
            | Word::Const
    )
}

pub fn type_first(rest: &[Token]) -> bool
    ensures { result ≡ begins_type rest.now }
{
    match rest {
        [first, ..] => match &first.kind {
            Kind::Word(word) => type_word(*word),
            _ => false,
        },
        [] => false,
    }
}

pub fn open_type_first(rest: &[Token]) -> bool
    ensures { result ≡ opens_type rest.now }
{
    match rest {
        [first, others @ ..] => match &first.kind {
            Kind::Sign(Sign::OpenParenthesis) => type_first(others),
            _ => false,
        },
        [] => false,
    }
}

pub fn void_first(rest: &[Token]) -> bool
    ensures { result ≡ lone_void rest.now }
{
    match rest {
        [first, others @ ..] => match &first.kind {
            Kind::Word(Word::Void) => matches!(mark_first(others), Punctuator::Close),
            _ => false,
        },
        [] => false,
    }
}

pub fn else_first(rest: &[Token]) -> bool
    ensures { result ≡ begins_else rest.now }
{
    match rest {
        [first, ..] => matches!(&first.kind, Kind::Word(Word::Else)),
        [] => false,
    }
}

pub fn from_first(rest: &[Token]) -> u32
    ensures { result ≡ from_of rest.now }
{
    match rest {
        [first, ..] => first.from,
        [] => 0,
    }
}
