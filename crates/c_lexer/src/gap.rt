// What stands between tokens: comments and line markers.

ghost use Rattle.std.specs.Prelude.{◌≡◌, ◌≤◌, true, length, nat_eq, codes, IfSome};
ghost use Rattle.std.specs.List.{starts_with};
ghost use Rattle.c_lexer.specs.Gaps.{comment_length, comment_at, is_marker_end as marker_end_test, is_marker_number as marker_number_test, is_marker as marker_test, marker_at};

use crate::bytes::{Class, run};
use crate::item::{Fault, Item};

// How many bytes there are up to the first `*/`, with it.
fn comment_len(bytes: &[u8]) -> Option<usize>
    ensures bound { IfSome result (λ n. n ≤ length bytes.now) }
    ensures value { result ≡ comment_length bytes.now }
{
    for at in 0..bytes.len() {
        let (_, rest) = bytes.split_at(at);
        if rest.starts_with(b"*/") {
            return Some(at + 2);
        }
    }
    None
}

/// The comment that begins with the `/*` at the prefix.
#[tactic(auto, unfolding(crate::specs::Gaps::comment_at))]
pub fn read_comment(bytes: &[u8]) -> Item
    requires { starts_with nat_eq bytes.now (codes "/*") ≡ true }
    ensures { result ≡ comment_at bytes.now }
{
    let (_, rest) = bytes.split_at(2);
    match comment_len(rest) {
        None => Item::Fault(Fault::OpenText, 0),
        Some(len) => Item::Skip(len + 2, false),
    }
}

#[tactic(auto, unfolding(crate::specs::Gaps::is_marker_end))]
fn is_marker_end(line: &[u8]) -> bool
    ensures { result ≡ marker_end_test line.now }
{
    let blanks = run(Class::Blank, line);
    let (_, name) = line.split_at(blanks);
    line.is_empty() || (blanks > 0 && name.starts_with(b"\""))
}

#[tactic(auto, unfolding(crate::specs::Gaps::is_marker_number))]
fn is_marker_number(line: &[u8]) -> bool
    ensures { result ≡ marker_number_test line.now }
{
    let digits = run(Class::Digit(10), line);
    let (_, rest) = line.split_at(digits);
    digits > 0 && is_marker_end(rest)
}

#[tactic(auto, unfolding(crate::specs::Gaps::is_marker))]
fn is_marker(line: &[u8]) -> bool
    ensures { result ≡ marker_test line.now }
{
    let blanks = run(Class::Blank, line);
    let (_, rest) = line.split_at(blanks);
    blanks > 0 && is_marker_number(rest)
}

/// The line marker that begins with the `#` at the prefix.
#[tactic(auto, unfolding(crate::specs::Gaps::marker_at))]
pub fn read_marker(bytes: &[u8]) -> Item
    requires { 1 ≤ length bytes.now }
    ensures { result ≡ marker_at bytes.now }
{
    let (_, rest) = bytes.split_at(1);
    let len = run(Class::Line, rest);
    let (line, _) = rest.split_at(len);
    if is_marker(line) {
        Item::Skip(len + 1, false)
    } else {
        Item::Fault(Fault::Directive, 0)
    }
}
