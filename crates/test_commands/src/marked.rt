//! Sources in one line: a mark `@` stands where a rule is broken, and `` `N TEXT` `` is the text N times.

use crate::fault::Fault;
use crate::text::{put, put_times};
use std::alloc::Global;

/// Adds the source to the bytes, and answers where its mark stands.
pub fn put_marked(alloc: Global, to: &mut Vec<u8>, source: &str) -> Result<Option<usize>, Fault> {
    let mut mark = None;
    let mut is_repeated = false;
    for piece in source.split('`') {
        if is_repeated {
            put_repeated(alloc, to, piece)?;
        } else if let Some(place) = put_plain(to, piece)? {
            mark = Some(place);
        }
        is_repeated = !is_repeated;
    }
    Ok(mark)
}

/// Adds what `N TEXT` stands for.
fn put_repeated(alloc: Global, to: &mut Vec<u8>, piece: &str) -> Result<(), Fault> {
    let Some((count, text)) = piece.split_once(' ') else {
        return Err(Fault::NoForm);
    };
    match count.parse::<usize>() {
        Ok(count) => put_times(alloc, to, count, text),
        Err(_) => Err(Fault::NoForm),
    }
}

/// Adds the text without its mark, and answers where that stands.
fn put_plain(to: &mut Vec<u8>, piece: &str) -> Result<Option<usize>, Fault> {
    let Some((before, after)) = piece.split_once('@') else {
        put(to, piece)?;
        return Ok(None);
    };
    put(to, before)?;
    let place = to.len();
    put(to, after)?;
    Ok(Some(place))
}
