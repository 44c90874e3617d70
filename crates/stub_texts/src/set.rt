//! The text of a set of stubs.

ghost use Rattle.std.specs.Prelude.{◌≡◌, ◌≤◌, ◌<◌, length, IfOk};
ghost use Rattle.std.specs.List.{flat_map};
ghost use Rattle.stub_operations.specs.Growing.{IsAdded};
ghost use Rattle.stub_texts.specs.Texts.{line_text, names_in, stub_text, stubs_text};

use crate::buffer::TextBuffer;
use crate::operation::put_line;
use c_code::Code;
use std::alloc::{AllocError, Global};
use stub_operations::{StubOp, StubSet};

fn name_of(code: &Code, number: u16) -> &[u8]
    ensures { result.now ≡ names_in code.now number }
{
    match code.func(number) {
        Some(function) => function.name.as_slice(),
        None => &[],
    }
}

fn put_lines(text: &mut TextBuffer, ops: &[StubOp])
    ensures { IsAdded text.old (flat_map line_text ops.now) text.new }
{
    for op in ops {
        put_line(text, op);
    }
}

fn put_stub(text: &mut TextBuffer, word: &str, code: &Code, number: u16, ops: &[StubOp])
    ensures { IsAdded text.old (stub_text word.now (names_in code.now number) number ops.now) text.new }
{
    text.put(b"stub ");
    text.put(word.as_bytes());
    text.put(b" ");
    text.put_number(u64::from(number));
    text.put(b" ");
    text.put(name_of(code, number));
    text.put(b"\n");
    put_lines(text, ops);
    text.put(b"end\n");
}

/// The text of the functions that were added to the set, by number: `word` says which set it is. A function that the code doesn't have
/// has no name. `AllocError` where there is no memory for it.
pub fn text(alloc: Global, word: &str, code: &Code, set: &StubSet) -> Result<Vec<u8>, AllocError>
    ensures { IfOk result (λ v. v.items ≡ stubs_text word.now (names_in code.now) set.now) }
{
    let all = set.added();
    let mut text = TextBuffer::new(alloc);
    for (number, added) in all.iter().enumerate() {
        match added {
            Some(ops) => put_stub(&mut text, word, code, number as u16, ops.as_slice()),
            None => {}
        }
    }
    text.finish()
}
