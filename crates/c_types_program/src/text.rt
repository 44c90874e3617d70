//! Strings.

use c_lexer::Text;

/// A string of the source: its offset, and its bytes without the ending zero (C11 6.4.5).
#[derive(Drop)]
pub struct TextLiteral {
    pub from: u32,
    pub bytes: Text,
}
