// Parts of a text that name no node.

use c_lexer::Text;
use c_syntax::Base;
use test_cases::Output;

/// A character by its value.
pub fn put_char(out: &mut Output, value: i8) {
    out.put("(char ");
    out.put_signed(i64::from(value));
    out.put(")");
}

/// A string between quotes. A byte that is no letter or sign, a quotation mark and a `\` are shown by their
/// number after a `\`.
pub fn put_string(out: &mut Output, text: &Text) {
    out.put("\"");
    for byte in text.as_slice() {
        match *byte {
            b'"' | b'\\' | 0..=31 | 127..=255 => {
                out.put("\\");
                out.put_number(u64::from(*byte));
            }
            shown => out.put_bytes(&[shown]),
        }
    }
    out.put("\"");
}

/// A type: an integer type by its sign and its bits, as `i32`.
pub fn put_base(out: &mut Output, base: &Base) {
    match base {
        Base::Void => out.put("void"),
        Base::Int { bytes, signed } => {
            out.put(if *signed { "i" } else { "u" });
            out.put_number(u64::from(*bytes) * 8);
        }
        Base::Struct(name) => {
            out.put("struct ");
            out.put_bytes(name.as_slice());
        }
    }
}

/// A space and the name, if there is one.
pub fn put_name(out: &mut Output, name: &Option<Text>) {
    if let Some(name) = name {
        out.put(" ");
        out.put_bytes(name.as_slice());
    }
}
