//! Lines of findings.

ghost use Rattle.std.specs.Prelude.{◌≡◌, ◌++◌, OnOk, codes, decimal};
ghost use Rattle.std.specs.List.{flat_map};
ghost use Rattle.lockset_check_rules.specs.Lines.{line_of};
ghost use Rattle.lockset_check_lines.specs.Texts.{ended_line};

use lockset_check_rules::LockFinding;
use r2_base::put_dec;
use std::alloc::AllocError;

// Adds a word, and an offset.
fn put_placed(text: &mut Vec<u8>, word: &[u8], from: u32) -> Result<(), AllocError>
    ensures { OnOk result (text.new.items ≡ text.old.items ++ (word.now ++ codes " " ++ decimal from)) }
{
    text.extend_from_slice(word)?;
    text.push(b' ')?;
    put_dec(text, i128::from(from))
}

// Adds a word, an offset, and the name that stands there.
fn put_named(text: &mut Vec<u8>, word: &[u8], from: u32, name: &[u8]) -> Result<(), AllocError>
    ensures { OnOk result (text.new.items ≡
        text.old.items ++ (word.now ++ codes " " ++ decimal from ++ codes " " ++ name.now)) }
{
    put_placed(text, word, from)?;
    text.push(b' ')?;
    text.extend_from_slice(name)
}

fn put_line(text: &mut Vec<u8>, finding: &LockFinding) -> Result<(), AllocError>
    ensures { OnOk result (text.new.items ≡ text.old.items ++ line_of finding.now) }
{
    match finding {
        LockFinding::Unheld(from, name) => put_named(text, b"unheld", *from, name.as_slice()),
        LockFinding::Address(from, name) => put_named(text, b"address", *from, name.as_slice()),
        LockFinding::NotConstant(from) => put_placed(text, b"notconstant", *from),
        LockFinding::UnlockUnheld(from) => put_placed(text, b"unlockunheld", *from),
        LockFinding::LoopLocks(from) => put_placed(text, b"looplocks", *from),
        LockFinding::ReturnLocks(from) => put_placed(text, b"returnlocks", *from),
    }
}

// Adds a line and its end.
fn put_ended(text: &mut Vec<u8>, finding: &LockFinding) -> Result<(), AllocError>
    ensures { OnOk result (text.new.items ≡ text.old.items ++ ended_line finding.now) }
{
    put_line(text, finding)?;
    text.push(b'\n')?;
    Ok(())
}

/// Adds the lines of findings with their ends, one after the other. `AllocError` where there is no memory for them; the text then
/// ends with a part of them.
pub fn put_lines(text: &mut Vec<u8>, found: &[LockFinding]) -> Result<(), AllocError>
    ensures { OnOk result (text.new.items ≡ text.old.items ++ flat_map ended_line found.now) }
{
    for finding in found {
        put_ended(text, finding)?;
    }
    Ok(())
}
