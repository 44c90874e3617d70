//! The texts of values.

ghost use Rattle.std.specs.Prelude.{◌≡◌, ◌≤◌, ◌+◌, ◌++◌, OnOk, codes, flat_map, length};
ghost use Rattle.std.specs.Fmt.{signed_decimal};
ghost use Rattle.c_code.specs.Values.{read};
ghost use Rattle.call_inspector.specs.EventText.{address_text, value_text, more_args_text, args_text, result_text, byte_text, piece_text};

use c_code::Shape;
use event_texts::PrependBuffer;
use r2_base::{hex_digit, put_dec, put_hex};
use r2_num::{IntKind, wrap};
use std::alloc::AllocError;

/// Adds an address.
pub fn put_address(text: &mut Vec<u8>, addr: u64) -> Result<(), AllocError>
    ensures { OnOk result (text.new.items ≡ text.old.items ++ address_text addr) }
{
    text.extend_from_slice(b"0x")?;
    put_hex(text, addr)
}

/// Puts an integer of the kind before the text.
#[inline]
fn prepend_int(buffer: &mut PrependBuffer, kind: IntKind, value: u64)
    requires { length buffer.old ≤ 100 }
    ensures text { buffer.new ≡ signed_decimal (read kind value) ++ buffer.old }
    ensures short { length buffer.new ≤ length buffer.old + 21 }
{
    let number = wrap(kind, i128::from(value));
    buffer.put_number(number.unsigned_abs() as u64);
    if number < 0 {
        buffer.put_byte(b'-');
    }
}

/// Adds a value of the type.
pub fn put_value(text: &mut Vec<u8>, shape: Shape, value: u64) -> Result<(), AllocError>
    ensures { OnOk result (text.new.items ≡ text.old.items ++ value_text shape value) }
{
    match shape {
        Shape::Void => Ok(()),
        Shape::Int(kind) => put_dec(text, wrap(kind, i128::from(value))),
        Shape::Pointer => put_address(text, value),
    }
}

/// Adds each argument after a comma and a space, as far as there are types.
fn put_more_args(text: &mut Vec<u8>, shapes: &[Shape], args: &[u64]) -> Result<(), AllocError>
    ensures { OnOk result (text.new.items ≡ text.old.items ++ more_args_text shapes.now args.now) }
{
    for i in 0..shapes.len().min(args.len()) {
        text.extend_from_slice(b", ")?;
        put_value(text, shapes[i], args[i])?;
    }
    Ok(())
}

/// Adds arguments of these types, with a comma and a space between two.
pub fn put_args(text: &mut Vec<u8>, shapes: &[Shape], args: &[u64]) -> Result<(), AllocError>
    ensures { OnOk result (text.new.items ≡ text.old.items ++ args_text shapes.now args.now) }
{
    let [shape, shapes @ ..] = shapes else {
        return Ok(());
    };
    let [arg, args @ ..] = args else {
        return Ok(());
    };
    put_value(text, *shape, *arg)?;
    put_more_args(text, shapes, args)
}

/// Adds ` = ` and an integer of the kind.
fn put_equal_int(text: &mut Vec<u8>, kind: IntKind, value: u64) -> Result<(), AllocError>
    ensures { OnOk result (text.new.items ≡
        text.old.items ++ (codes " = " ++ signed_decimal (read kind value))) }
{
    let mut buffer = PrependBuffer::new();
    prepend_int(&mut buffer, kind, value);
    buffer.put_word(" = ");
    text.extend_from_slice(buffer.as_slice())
}

/// Adds ` = ` and an address.
fn put_equal_address(text: &mut Vec<u8>, addr: u64) -> Result<(), AllocError>
    ensures { OnOk result (text.new.items ≡ text.old.items ++ (codes " = " ++ address_text addr)) }
{
    text.extend_from_slice(b" = ")?;
    put_address(text, addr)
}

/// Adds what a result of the type adds to the name of its function.
pub fn put_result(text: &mut Vec<u8>, shape: Shape, value: u64) -> Result<(), AllocError>
    ensures { OnOk result (text.new.items ≡ text.old.items ++ result_text shape value) }
{
    match shape {
        Shape::Void => Ok(()),
        Shape::Int(kind) => put_equal_int(text, kind, value),
        Shape::Pointer => put_equal_address(text, value),
    }
}

/// The two hexadecimal digits of a byte.
#[inline]
pub fn hex_pair(byte: u8) -> [u8; 2]
    ensures { result ≡ byte_text byte }
{
    [hex_digit(byte / 16), hex_digit(byte % 16)]
}

/// Adds two hexadecimal digits for each byte.
pub fn put_bytes(text: &mut Vec<u8>, bytes: &[u8]) -> Result<(), AllocError>
    ensures { OnOk result (text.new.items ≡ text.old.items ++ flat_map byte_text bytes.now) }
{
    for byte in bytes {
        text.extend_from_slice(&hex_pair(*byte))?;
    }
    Ok(())
}

/// Adds a space and the bytes of a region that came back.
pub fn put_piece(text: &mut Vec<u8>, piece: &[u8]) -> Result<(), AllocError>
    ensures { OnOk result (text.new.items ≡ text.old.items ++ piece_text piece.now) }
{
    if piece.is_empty() {
        return text.extend_from_slice(b" -");
    }
    text.push(b' ')?;
    put_bytes(text, piece)
}
