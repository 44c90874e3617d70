//! What a list of annotations is read for.

use crate::kind::FunctionKind;
use crate::signature::Signature;

/// A function whose annotations are read, and the cut that is looked for.
#[derive(Clone, Copy)]
pub(crate) struct Subject<'s, 't, 'c> {
    pub(crate) signature: &'s Signature<'t>,
    pub(crate) kind: FunctionKind,
    pub(crate) cut: &'c [u8],
}
