// How keywords and signs are spelled, and what is spelled so.

ghost use Rattle.std.specs.Prelude.{◌≡◌, ℕ, List, ◌∷◌, nat_eq};
ghost use Rattle.std.specs.List.{find};
ghost use Rattle.std.specs.Cmp.Lexicographic.{pointwise};
ghost use Rattle.c_lexer.specs.Words.{word_text, keyword};
ghost use Rattle.c_lexer.specs.Signs.{sign_text, begins_with, sign_at};

use crate::token::{Sign, Word};

impl Word {
    /// How it is spelled.
    pub fn text(self) -> &'static [u8]
        ensures { result.now ≡ word_text self }
    {
        match self {
            Word::Void => b"void",
            Word::Char => b"char",
            Word::Short => b"short",
            Word::Int => b"int",
            Word::Long => b"long",
            Word::Signed => b"signed",
            Word::Unsigned => b"unsigned",
            Word::Struct => b"struct",
            Word::Const => b"const",
            Word::Extern => b"extern",
            Word::Static => b"static",
            Word::If => b"if",
            Word::Else => b"else",
            Word::While => b"while",
            Word::For => b"for",
            Word::Do => b"do",
            Word::Break => b"break",
            Word::Continue => b"continue",
            Word::Return => b"return",
            Word::Sizeof => b"sizeof",
            Word::Typedef => b"typedef",
            Word::Enum => b"enum",
            Word::Union => b"union",
            Word::Switch => b"switch",
            Word::Case => b"case",
            Word::Default => b"default",
            Word::Goto => b"goto",
            Word::Float => b"float",
            Word::Double => b"double",
            Word::Volatile => b"volatile",
            Word::Register => b"register",
            Word::Inline => b"inline",
            Word::Restrict => b"restrict",
            Word::Auto => b"auto",
        }
    }
}

impl Sign {
    /// How it is spelled.
    pub fn text(self) -> &'static [u8]
        ensures { result.now ≡ sign_text self }
    {
        match self {
            Sign::ShiftLeftAssign => b"<<=",
            Sign::ShiftRightAssign => b">>=",
            Sign::Arrow => b"->",
            Sign::Increment => b"++",
            Sign::Decrement => b"--",
            Sign::ShiftLeft => b"<<",
            Sign::ShiftRight => b">>",
            Sign::LessEqual => b"<=",
            Sign::GreaterEqual => b">=",
            Sign::Equal => b"==",
            Sign::NotEqual => b"!=",
            Sign::AndAnd => b"&&",
            Sign::OrOr => b"||",
            Sign::StarAssign => b"*=",
            Sign::SlashAssign => b"/=",
            Sign::PercentAssign => b"%=",
            Sign::PlusAssign => b"+=",
            Sign::MinusAssign => b"-=",
            Sign::AmpersandAssign => b"&=",
            Sign::CaretAssign => b"^=",
            Sign::BarAssign => b"|=",
            Sign::OpenBracket => b"[",
            Sign::CloseBracket => b"]",
            Sign::OpenParenthesis => b"(",
            Sign::CloseParenthesis => b")",
            Sign::OpenBrace => b"{",
            Sign::CloseBrace => b"}",
            Sign::Dot => b".",
            Sign::Ampersand => b"&",
            Sign::Star => b"*",
            Sign::Plus => b"+",
            Sign::Minus => b"-",
            Sign::Tilde => b"~",
            Sign::Exclamation => b"!",
            Sign::Slash => b"/",
            Sign::Percent => b"%",
            Sign::Less => b"<",
            Sign::Greater => b">",
            Sign::Caret => b"^",
            Sign::Bar => b"|",
            Sign::Question => b"?",
            Sign::Colon => b":",
            Sign::Semicolon => b";",
            Sign::Assign => b"=",
            Sign::Comma => b",",
        }
    }
}

#[tactic(auto, using(crate::proofs::Search::find_on, crate::proofs::Search::find_stop, crate::proofs::Search::find_end))]
fn first_word(words: &[Word], name: &[u8]) -> Option<Word>
    ensures { result ≡ find (λ k. pointwise nat_eq name.now (word_text k)) words.now }
{
    for word in words {
        if name == word.text() {
            return Some(*word);
        }
    }
    None
}

// The keywords that begin with this byte.
#[tactic(auto, unfolding(crate::specs::Words::keyword))]
fn words_with(first: u8) -> &'static [Word]
    ensures { (rest : List ℕ) →
        find (λ k. pointwise nat_eq (first ∷ rest) (word_text k)) result.now ≡ keyword (first ∷ rest) }
{
    match first {
        b'a' => &[Word::Auto],
        b'b' => &[Word::Break],
        b'c' => &[Word::Char, Word::Const, Word::Continue, Word::Case],
        b'd' => &[Word::Do, Word::Default, Word::Double],
        b'e' => &[Word::Extern, Word::Else, Word::Enum],
        b'f' => &[Word::For, Word::Float],
        b'g' => &[Word::Goto],
        b'i' => &[Word::Int, Word::If, Word::Inline],
        b'l' => &[Word::Long],
        b'r' => &[Word::Return, Word::Register, Word::Restrict],
        b's' => &[
            Word::Short,
            Word::Signed,
            Word::Struct,
            Word::Static,
            Word::Sizeof,
            Word::Switch,
        ],
        b't' => &[Word::Typedef],
        b'u' => &[Word::Unsigned, Word::Union],
        b'v' => &[Word::Void, Word::Volatile],
        b'w' => &[Word::While],
        _ => &[],
    }
}

/// The keyword that is spelled so.
#[tactic(auto, unfolding(crate::specs::Words::keyword))]
pub fn keyword_of(name: &[u8]) -> Option<Word>
    ensures { result ≡ keyword name.now }
{
    match name.split_first() {
        Some((first, _)) => first_word(words_with(*first), name),
        None => None,
    }
}

#[tactic(auto, using(crate::proofs::Search::find_on, crate::proofs::Search::find_stop, crate::proofs::Search::find_end))]
fn first_sign(signs: &[Sign], bytes: &[u8]) -> Option<Sign>
    ensures { result ≡ find (λ s. begins_with bytes.now s) signs.now }
{
    for sign in signs {
        if bytes.starts_with(sign.text()) {
            return Some(*sign);
        }
    }
    None
}

// The signs that begin with this byte, those of more bytes first.
#[tactic(auto, unfolding(crate::specs::Signs::sign_at))]
fn signs_with(first: u8) -> &'static [Sign]
    ensures { (rest : List ℕ) →
        find (λ s. begins_with (first ∷ rest) s) result.now ≡ sign_at (first ∷ rest) }
{
    match first {
        b'!' => &[Sign::NotEqual, Sign::Exclamation],
        b'%' => &[Sign::PercentAssign, Sign::Percent],
        b'&' => &[Sign::AndAnd, Sign::AmpersandAssign, Sign::Ampersand],
        b'(' => &[Sign::OpenParenthesis],
        b')' => &[Sign::CloseParenthesis],
        b'*' => &[Sign::StarAssign, Sign::Star],
        b'+' => &[Sign::Increment, Sign::PlusAssign, Sign::Plus],
        b',' => &[Sign::Comma],
        b'-' => &[Sign::Arrow, Sign::Decrement, Sign::MinusAssign, Sign::Minus],
        b'.' => &[Sign::Dot],
        b'/' => &[Sign::SlashAssign, Sign::Slash],
        b':' => &[Sign::Colon],
        b';' => &[Sign::Semicolon],
        b'<' => &[
            Sign::ShiftLeftAssign,
            Sign::ShiftLeft,
            Sign::LessEqual,
            Sign::Less,
        ],
        b'=' => &[Sign::Equal, Sign::Assign],
        b'>' => &[
            Sign::ShiftRightAssign,
            Sign::ShiftRight,
            Sign::GreaterEqual,
            Sign::Greater,
        ],
        b'?' => &[Sign::Question],
        b'[' => &[Sign::OpenBracket],
        b']' => &[Sign::CloseBracket],
        b'^' => &[Sign::CaretAssign, Sign::Caret],
        b'{' => &[Sign::OpenBrace],
        b'|' => &[Sign::OrOr, Sign::BarAssign, Sign::Bar],
        b'}' => &[Sign::CloseBrace],
        b'~' => &[Sign::Tilde],
        _ => &[],
    }
}

/// The longest sign that the bytes begin with.
#[tactic(auto, unfolding(crate::specs::Signs::sign_at))]
pub fn sign_of(bytes: &[u8]) -> Option<Sign>
    ensures { result ≡ sign_at bytes.now }
{
    match bytes.split_first() {
        Some((first, _)) => first_sign(signs_with(*first), bytes),
        None => None,
    }
}
