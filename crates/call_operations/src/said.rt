//! What annotations say, as far as calls ask.

ghost use Rattle.std.specs.Prelude.{◌≡◌, ◌≤◌, length, take};

use annot_reader_words::{Annots, Param};
use stub_core::Size;

// A place is a byte.
const PLACES: usize = 256;

// Those that have a place.
fn with_places(params: &[Param]) -> &[Param]
    ensures first { result.now ≡ take 256 params.now }
    ensures few { length result.now ≤ 256 }
{
    if params.len() > PLACES {
        &params[..PLACES]
    } else {
        params
    }
}

/// What the annotations of a function say of its calls. There is a place for each parameter.
#[derive(Clone, Copy)]
pub(crate) struct Said<'a> {
    pub(crate) params: &'a [Param],
    pub(crate) sync: &'a [u8],
    pub(crate) commit: Option<(u8, Size)>,
    pub(crate) cache: bool,
}

impl<'a> Said<'a> {
    ghost use Rattle.call_operations.specs.Said.{call_says, says};

    /// What these annotations say.
    pub(crate) fn of(annots: &'a Annots) -> Said<'a>
        ensures said { says result ≡ call_says annots.now }
        ensures few { length result.params.now ≤ 256 }
    {
        Said {
            params: with_places(annots.params.as_slice()),
            sync: annots.sync.as_slice(),
            commit: annots.commit,
            cache: annots.cache,
        }
    }
}
