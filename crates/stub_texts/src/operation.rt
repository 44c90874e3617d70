//! The line of an operation.

ghost use Rattle.std.specs.Prelude.{◌++◌, codes};
ghost use Rattle.stub_operations.specs.Growing.{IsAdded};
ghost use Rattle.stub_texts.specs.Texts.{factor_text, keyed, line_text, operation_text, place_text, placed, size_text, sized, term_text};

use crate::buffer::TextBuffer;
use run_events::Class;
use stub_core::{Size, Term};
use stub_operations::StubOp;

// Words, and then the place of a parameter.
fn put_placed(text: &mut TextBuffer, words: &[u8], place: u8)
    ensures { IsAdded text.old (placed words.now place) text.new }
{
    text.put(words);
    text.put_number(u64::from(place));
}

fn put_term(text: &mut TextBuffer, term: Term)
    ensures { IsAdded text.old (term_text term) text.new }
{
    match term {
        Term::Const(number) => text.put_number(number),
        Term::Param(place) => put_placed(text, b"arg", place),
        Term::Return => text.put(b"return"),
    }
}

fn put_product(text: &mut TextBuffer, term: Term)
    ensures { IsAdded text.old (codes "*" ++ term_text term) text.new }
{
    text.put(b"*");
    put_term(text, term);
}

fn put_factor(text: &mut TextBuffer, factor: Option<Term>)
    ensures { IsAdded text.old (factor_text factor) text.new }
{
    match factor {
        Some(term) => put_product(text, term),
        None => {}
    }
}

fn put_size(text: &mut TextBuffer, size: Size)
    ensures { IsAdded text.old (size_text size) text.new }
{
    put_term(text, size.a);
    put_factor(text, size.b);
}

// Words, and then a size.
fn put_sized(text: &mut TextBuffer, words: &[u8], size: Size)
    ensures { IsAdded text.old (sized words.now size) text.new }
{
    text.put(words);
    put_size(text, size);
}

fn put_place(text: &mut TextBuffer, param: Option<u8>)
    ensures { IsAdded text.old (place_text param) text.new }
{
    match param {
        Some(place) => put_placed(text, b" ", place),
        None => {}
    }
}

// Words, a space, the class, and the place of the parameter.
fn put_key(text: &mut TextBuffer, words: &[u8], class: Class, param: Option<u8>)
    ensures { IsAdded text.old (keyed words.now class param) text.new }
{
    text.put(words);
    text.put(b" ");
    text.put(class.word().as_bytes());
    put_place(text, param);
}

fn put_read(text: &mut TextBuffer, param: u8, size: Size)
    ensures { IsAdded text.old (operation_text (StubOp.ReadIn param size)) text.new }
{
    put_placed(text, b"read ", param);
    put_sized(text, b" size ", size);
}

fn put_hold(text: &mut TextBuffer, param: u8, cap: Size, used: Size)
    ensures { IsAdded text.old (operation_text (StubOp.HoldOut param cap used)) text.new }
{
    put_placed(text, b"hold ", param);
    put_sized(text, b" cap ", cap);
    put_sized(text, b" used ", used);
}

fn put_prepare(text: &mut TextBuffer, param: u8, key: u8, cap: Size)
    ensures { IsAdded text.old (operation_text (StubOp.Prepare param key cap)) text.new }
{
    put_placed(text, b"prepare ", param);
    put_placed(text, b" key arg", key);
    put_sized(text, b" cap ", cap);
}

fn put_commit(text: &mut TextBuffer, key: u8, used: Size)
    ensures { IsAdded text.old (operation_text (StubOp.Commit key used)) text.new }
{
    put_placed(text, b"commit key arg", key);
    put_sized(text, b" used ", used);
}

fn put_operation(text: &mut TextBuffer, op: &StubOp)
    ensures { IsAdded text.old (operation_text op.now) text.new }
{
    match *op {
        StubOp::ReadIn { param, size } => put_read(text, param, size),
        StubOp::HoldOut { param, cap, used } => put_hold(text, param, cap, used),
        StubOp::Prepare { param, key, cap } => put_prepare(text, param, key, cap),
        StubOp::Register { param } => put_placed(text, b"register ", param),
        StubOp::Commit { key, used } => put_commit(text, key, used),
        StubOp::KeyAtCall { class, param } => put_key(text, b"keycall", class, param),
        StubOp::KeyAtRet { class, param } => put_key(text, b"keyret", class, param),
        StubOp::CacheRet => text.put(b"cache"),
        StubOp::Pass => text.put(b"pass"),
    }
}

/// Adds the line of the operation.
pub(crate) fn put_line(text: &mut TextBuffer, op: &StubOp)
    ensures { IsAdded text.old (line_text op.now) text.new }
{
    put_operation(text, op);
    text.put(b"\n");
}
