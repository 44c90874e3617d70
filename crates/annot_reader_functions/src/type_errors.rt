//! Rules of types that an annotation breaks.

ghost use Rattle.std.specs.Prelude.{◌≡◌};
ghost use Rattle.annot_reader_functions.specs.TypeErrors.{by_type_error};

use annot_reader_words::AnnotationError;
use c_types_operators::TypeError;

/// The same, in an annotation.
pub(crate) fn in_annotation(error: TypeError) -> AnnotationError
    ensures { result ≡ by_type_error error }
{
    match error {
        TypeError::Rule(from, rule) => AnnotationError::Rule(from, rule),
        TypeError::Memory => AnnotationError::Memory,
    }
}
