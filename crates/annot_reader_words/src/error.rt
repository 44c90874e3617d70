//! Which rule of annotations a source breaks.

ghost use Rattle.std.specs.Prelude.{◌≡◌};

use std::alloc::AllocError;

/// Why annotations say nothing.
#[derive(Drop)]
pub enum AnnotationError {
    /// The node at this offset breaks this rule of annotations.
    Rule(u32, u8),
    Memory,
}

impl From<AllocError> for AnnotationError {
    ghost use Rattle.annot_reader_words.specs.declared.error.AnnotationError.TheVariants.{Memory};

    ghost from_gives = { λ _ e. e ≡ Memory };

    fn from(error: AllocError) -> Self {
        let _ = error;
        AnnotationError::Memory
    }
}
