// Names that were read, whose bytes those that are read again share.

ghost use Rattle.std.specs.Prelude.{◌≡◌, true, IfOk, IfSome};

use crate::text::Text;
use std::alloc::{AllocError, Global};

/// How many places there are.
const PLACES: usize = 1024;

/// Some of the names that were read: at each place the last one that belongs there.
#[derive(Drop)]
pub struct Names {
    alloc: Global,
    places: Vec<Option<Text>>,
}

// The place of a name, below 1024: ten bits of a hash by all its bytes.
fn place_of(name: &[u8]) -> usize {
    let mut hash: u32 = 0;
    for byte in name {
        hash = hash.wrapping_mul(31).wrapping_add(u32::from(*byte));
    }
    (hash.wrapping_mul(0x9e37_79b1) >> 22) as usize
}

// Whether the text has these bytes.
fn is_text(text: &Text, name: &[u8]) -> bool
    ensures { result ≡ true → text.now ≡ name.now }
{
    text.as_slice() == name
}

// The text at a place, where it has these bytes.
fn found<'a>(place: Option<&'a Option<Text>>, name: &[u8]) -> Option<&'a Text>
    ensures { IfSome result (λ t. t.now ≡ name.now) }
{
    match place {
        Some(Some(text)) if is_text(text, name) => Some(text),
        _ => None,
    }
}

impl Names {
    /// No names. `AllocError` where there is no memory.
    pub fn new(alloc: Global) -> Result<Names, AllocError> {
        let mut places = Vec::new(alloc);
        for _ in 0..PLACES {
            places.push(None)?;
        }
        Ok(Names { alloc, places })
    }

    /// The text of a name: that at its place, where the same name was read last there, else a new one.
    ///
    /// `AllocError` where there is no memory.
    pub fn text_of(&mut self, name: &[u8]) -> Result<Text, AllocError>
        ensures { IfOk result (λ t. t ≡ name.now) }
    {
        let place = place_of(name);
        if let Some(text) = found(self.places.get(place), name) {
            return text.share();
        }
        let text = Text::from_slice(self.alloc, name)?;
        if let Some(last) = self.places.get_mut(place) {
            *last = Some(text.share()?);
        }
        Ok(text)
    }
}
