// Characters and strings (C11 6.4.4.4 and 6.4.5).

ghost use Rattle.std.specs.Prelude.{◌≡◌, ◌++◌, ◌∷◌, [], IfOk, OnOk};
ghost use Rattle.c_lexer.specs.Texts.{character_at, string_at, signed_char as char_value};

use crate::item::{Fault, Item};
use crate::text::Text;
use crate::text_part::{Part, part_at};
use crate::token::Kind;
use std::alloc::{AllocError, Global};

#[tactic(auto, unfolding(crate::specs::Texts::signed_char))]
fn signed_char(byte: u8) -> i8
    ensures { result ≡ char_value byte }
{
    byte.cast_signed()
}

/// The character whose opening quote the bytes follow.
#[tactic(auto, unfolding(crate::specs::Texts::character_at, crate::specs::Texts::character))]
pub fn read_character(bytes: &[u8]) -> Item
    ensures { result ≡ character_at bytes.now }
{
    match part_at(b'\'', bytes) {
        Part::Close => Item::Fault(Fault::BadByte, 1),
        Part::Open => Item::Fault(Fault::OpenText, 0),
        Part::Bad => Item::Fault(Fault::BadByte, 1),
        Part::Byte(byte, len) => {
            let (_, rest) = bytes.split_at(len);
            if rest.starts_with(b"'") {
                Item::Token(len + 2, Kind::Char(signed_char(byte)))
            } else {
                Item::Fault(Fault::OpenText, 0)
            }
        }
    }
}

fn put(values: &mut Vec<u8>, byte: u8) -> Result<(), AllocError>
    ensures { OnOk result (values.new.items ≡ values.old.items ++ byte ∷ []) }
{
    values.push(byte)?;
    Ok(())
}

/// The string whose opening quote the bytes follow.
#[tactic(auto, unfolding(crate::specs::Texts::string_at, crate::specs::Texts::string))]
pub fn read_string(alloc: Global, bytes: &[u8]) -> Result<Item, AllocError>
    ensures { IfOk result (λ x. x ≡ string_at bytes.now) }
{
    let mut values: Vec<u8> = Vec::new(alloc);
    let mut rest = bytes;
    let mut len: usize = 0;
    loop {
        match part_at(b'"', rest) {
            Part::Byte(byte, count) => {
                put(&mut values, byte)?;
                rest = rest.split_at(count).1;
                len += count;
            }
            Part::Close => return Ok(Item::Token(len + 2, Kind::Text(Text::from_vec(values)?))),
            Part::Open => return Ok(Item::Fault(Fault::OpenText, 0)),
            Part::Bad => return Ok(Item::Fault(Fault::BadByte, len + 1)),
        }
    }
}
