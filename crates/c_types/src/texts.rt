//! The strings of a source (C11 6.4.5).

ghost use Rattle.std.specs.Prelude.{◌≡◌, IfOk};
ghost use Rattle.c_types.specs.Texts.{texts_among};

use c_lexer::{Kind, Text, Token};
use c_syntax::Seq;
use c_types_program::TextLiteral;
use std::alloc::{AllocError, Global};

/// The strings among the tokens of a source, in their order. `AllocError` where there is no memory for them.
pub(crate) fn texts_of(alloc: Global, tokens: &[Token]) -> Result<Seq<TextLiteral>, AllocError>
    ensures { IfOk result (λ texts. texts ≡ texts_among tokens.now) }
{
    let mut texts = Vec::new(alloc);
    for token in tokens {
        if let Kind::Text(text) = &token.kind {
            texts.push(TextLiteral {
                from: token.from,
                bytes: Text::from_slice(alloc, text.as_slice())?,
            })?;
        }
    }
    Ok(Seq::from(texts))
}
