// Classes of bytes, and runs of them.

ghost use Rattle.std.specs.Prelude.{◌≡◌, ◌≤◌, length};
ghost use Rattle.c_lexer.specs.Bytes.{is_letter as letter_test, is_digit as digit_test, is_blank as blank_test, digit_of as digit_value, is_digit_in as digit_in_base, test_of, run as run_length};

/// A class of bytes.
#[derive(Clone, Copy)]
pub enum Class {
    /// Space and tab.
    Blank,
    /// Any byte but the line feed.
    Line,
    /// Letters, digits and `_`.
    Name,
    /// The digits of a base of at most 16.
    Digit(u8),
}

/// Whether it is a letter or `_`.
#[tactic(auto, unfolding(crate::specs::Bytes::is_letter))]
pub fn is_letter(byte: u8) -> bool
    ensures { result ≡ letter_test byte }
{
    matches!(byte, b'a'..=b'z' | b'A'..=b'Z' | b'_')
}

/// Whether it is a space or a tab.
#[tactic(auto, unfolding(crate::specs::Bytes::is_blank))]
pub fn is_blank(byte: u8) -> bool
    ensures { result ≡ blank_test byte }
{
    byte == b' ' || byte == b'\t'
}

/// Whether it is a decimal digit.
#[tactic(auto, unfolding(crate::specs::Bytes::is_digit))]
pub fn is_digit(byte: u8) -> bool
    ensures { result ≡ digit_test byte }
{
    matches!(byte, b'0'..=b'9')
}

/// The value of a digit of any base up to 16, and 16 for what is none.
#[tactic(auto, unfolding(crate::specs::Bytes::digit_of, crate::specs::Bytes::is_digit))]
pub fn digit_of(byte: u8) -> u8
    ensures { result ≡ digit_value byte }
{
    match byte {
        b'0'..=b'9' => byte - b'0',
        b'a'..=b'f' => byte - b'a' + 10,
        b'A'..=b'F' => byte - b'A' + 10,
        _ => 16,
    }
}

/// Whether it is a digit of the base.
#[tactic(auto, unfolding(crate::specs::Bytes::is_digit_in))]
pub fn is_digit_in(base: u8, byte: u8) -> bool
    ensures { result ≡ digit_in_base base byte }
{
    digit_of(byte) < base
}

impl Class {
    /// Whether the byte belongs to it.
    #[tactic(auto, unfolding(crate::specs::Bytes::is_line_byte, crate::specs::Bytes::is_name_byte))]
    fn has(self, byte: u8) -> bool
        ensures { result ≡ test_of self byte }
    {
        match self {
            Class::Blank => is_blank(byte),
            Class::Line => byte != b'\n',
            Class::Name => is_letter(byte) || is_digit(byte),
            Class::Digit(base) => is_digit_in(base, byte),
        }
    }
}

/// How many bytes at the prefix belong to the class.
#[tactic(auto, using(crate::proofs::Runs::run_on, crate::proofs::Runs::run_stop, crate::proofs::Runs::run_end))]
pub fn run(class: Class, bytes: &[u8]) -> usize
    ensures bound { result ≤ length bytes.now }
    ensures value { result ≡ run_length (test_of class) bytes.now }
{
    for (at, byte) in bytes.iter().enumerate() {
        if !class.has(*byte) {
            return at;
        }
    }
    bytes.len()
}
