//! Why a source has no interface of a cut.

ghost use Rattle.std.specs.Prelude.{◌≡◌};
ghost use Rattle.annot_reader.specs.Errors.{by_annotation_error};

use annot_reader_words::AnnotationError;
use std::alloc::AllocError;
use thiserror::Error;

/// Why a source has no interface of a cut.
#[derive(Debug, Drop, Error)]
pub enum InterfaceError {
    /// The node at this offset breaks this rule of annotations.
    #[error("the node at {0} breaks annotation rule {1}")]
    Rule(u32, u8),
    /// The annotations keep all rules, and no declaration names the cut.
    #[error("no declaration names the cut")]
    NoSuchCut,
    #[error("out of memory")]
    Memory,
}

impl From<AllocError> for InterfaceError {
    ghost use Rattle.annot_reader.specs.declared.error.InterfaceError.TheVariants.{Memory};

    ghost from_gives = { λ _ e. e ≡ Memory };

    fn from(error: AllocError) -> Self {
        let _ = error;
        InterfaceError::Memory
    }
}

impl From<AnnotationError> for InterfaceError {
    ghost from_gives = { λ x e. e ≡ by_annotation_error x };

    fn from(error: AnnotationError) -> Self {
        match error {
            AnnotationError::Rule(from, rule) => InterfaceError::Rule(from, rule),
            AnnotationError::Memory => InterfaceError::Memory,
        }
    }
}
