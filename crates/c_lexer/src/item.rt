// What stands at a place of the source.

ghost use Rattle.std.specs.Prelude.{◌≡◌, ◌≤◌, length, drop, IfOk, IfSome};
ghost use Rattle.c_lexer.specs.declared.item.Item.TheVariants.{Skip};
ghost use Rattle.c_lexer.specs.Signs.{sign_at};
ghost use Rattle.c_lexer.specs.Items.{name_at, number_at, sign, token_at, item_of, item_at as item_seen};

use crate::bytes::{Class, is_blank, is_digit, is_letter, run};
use crate::gap::{read_comment, read_marker};
use crate::names::Names;
use crate::number::number_of;
use crate::quoted::{read_character, read_string};
use crate::spelling::{keyword_of, sign_of};
use crate::token::Kind;
use std::alloc::{AllocError, Global};

const FORM_FEED: u8 = 12;

/// A rule of the tokens that a source can break.
#[derive(Clone, Copy)]
pub enum Fault {
    /// A byte that begins no token, or doesn't fit in the one that it stands in.
    BadByte,
    /// A comment, character or string that isn't closed.
    OpenText,
    /// A number that no type holds.
    BigNumber,
    /// A line that begins with `#` and is no line marker.
    Directive,
}

/// What stands at a place: the end, so many bytes to pass over, a token of so many bytes, or a
/// fault so many bytes further on.
#[derive(Drop)]
pub enum Item {
    /// The end of the source.
    Finished,
    /// Bytes between tokens, and whether only blanks of a line stand before what follows.
    Skip(usize, bool),
    Token(usize, Kind),
    Fault(Fault, usize),
}

// A name or keyword: the run of letters, digits and `_` at the prefix.
#[tactic(auto, unfolding(crate::specs::Items::name_at))]
fn read_name(names: &mut Names, bytes: &[u8]) -> Result<Item, AllocError>
    ensures { IfOk result (λ x. x ≡ name_at bytes.now) }
{
    let len = run(Class::Name, bytes);
    let (name, _) = bytes.split_at(len);
    let kind = match keyword_of(name) {
        Some(word) => Kind::Word(word),
        None => Kind::Name(names.text_of(name)?),
    };
    Ok(Item::Token(len, kind))
}

// A number: the same run, all of which must spell it.
#[tactic(auto, unfolding(crate::specs::Items::number_at))]
fn read_number(bytes: &[u8]) -> Item
    ensures { result ≡ number_at bytes.now }
{
    let len = run(Class::Name, bytes);
    let (text, _) = bytes.split_at(len);
    match number_of(text) {
        Ok(kind) => Item::Token(len, kind),
        Err(fault) => Item::Fault(fault, 0),
    }
}

// A sign, the longest that fits.
fn read_sign(bytes: &[u8]) -> Item
    ensures { result ≡ sign (sign_at bytes.now) }
{
    match sign_of(bytes) {
        Some(sign) => Item::Token(sign.text().len(), Kind::Sign(sign)),
        None => Item::Fault(Fault::BadByte, 0),
    }
}

// The token that begins with this byte.
#[tactic(auto, unfolding(crate::specs::Items::token_at))]
fn read_token(alloc: Global, names: &mut Names, first: u8, bytes: &[u8]) -> Result<Item, AllocError>
    requires { 1 ≤ length bytes.now }
    ensures { IfOk result (λ x. x ≡ token_at first bytes.now) }
{
    let (_, rest) = bytes.split_at(1);
    if is_letter(first) {
        read_name(names, bytes)
    } else if is_digit(first) {
        Ok(read_number(bytes))
    } else if first == b'\'' {
        Ok(read_character(rest))
    } else if first == b'"' {
        read_string(alloc, rest)
    } else {
        Ok(read_sign(bytes))
    }
}

#[tactic(auto, unfolding(crate::specs::Items::item_of))]
fn read_item(
    alloc: Global,
    names: &mut Names,
    fresh: bool,
    first: u8,
    bytes: &[u8],
) -> Result<Item, AllocError>
    requires { 1 ≤ length bytes.now }
    ensures { IfOk result (λ x. x ≡ item_of fresh first bytes.now) }
{
    if is_blank(first) {
        Ok(Item::Skip(1, fresh))
    } else if first == b'\n' {
        Ok(Item::Skip(1, true))
    } else if first == b'\r' || first == FORM_FEED {
        Ok(Item::Skip(1, false))
    } else if bytes.starts_with(b"/*") {
        Ok(read_comment(bytes))
    } else if bytes.starts_with(b"//") {
        Ok(Item::Skip(run(Class::Line, bytes), false))
    } else if fresh && first == b'#' {
        Ok(read_marker(bytes))
    } else {
        read_token(alloc, names, first, bytes)
    }
}

/// What stands at the prefix of the bytes, where `fresh` says that only blanks of a line that
/// begins outside a comment stand before it.
pub fn item_at(
    alloc: Global,
    names: &mut Names,
    fresh: bool,
    bytes: &[u8],
) -> Result<Item, AllocError>
    ensures { IfOk result (λ x. x ≡ item_seen fresh bytes.now) }
{
    match bytes {
        [] => Ok(Item::Finished),
        [first, ..] => read_item(alloc, names, fresh, *first, bytes),
    }
}

/// What is left after a space that stands at the prefix, and whether only blanks of a line then stand before it. `None` where
/// something else than a space stands there, or the end.
#[tactic(auto, unfolding(crate::specs::Items::item_of))]
pub fn after_space(fresh: bool, bytes: &[u8]) -> Option<(bool, &[u8])>
    ensures space { IfSome result (λ r. item_seen fresh bytes.now ≡ Skip 1 r.0) }
    ensures rest { IfSome result (λ r. r.1.now ≡ drop 1 bytes.now) }
{
    match bytes {
        [first, others @ ..] if is_blank(*first) => Some((fresh, others)),
        [b'\n', others @ ..] => Some((true, others)),
        _ => None,
    }
}
