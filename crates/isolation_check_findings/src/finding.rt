//! Findings and their lines.

ghost use Rattle.std.specs.Prelude.{◌≡◌, ◌++◌, codes, IfOk, OnOk};
ghost use Rattle.cut_graph_rules.specs.Findings.{Shared, Above};
ghost use Rattle.isolation_check_findings.specs.Found.{HasLine, finding_of};

use std::alloc::{AllocError, Global};

/// What is wrong, by names.
#[derive(Clone, Copy, PartialEq, Eq, PartialOrd, Ord)]
pub enum Cause<'a> {
    /// A global that one side writes, and the first functions by number that mention it above the cut and below it.
    Shared {
        global: &'a [u8],
        above: &'a [u8],
        below: &'a [u8],
    },
    /// An external outside the interface, and a function that may run above the cut and names it.
    Above {
        external: &'a [u8],
        caller: &'a [u8],
    },
}

/// What is wrong, and the line that says it, without a line end.
#[derive(PartialEq, Eq, PartialOrd, Ord, Drop)]
pub struct Finding<'a> {
    pub line: Vec<u8>,
    pub cause: Cause<'a>,
}

// Adds a blank and a word.
fn add_word(line: &mut Vec<u8>, word: &[u8]) -> Result<(), AllocError>
    ensures { OnOk result (line.new.items ≡ line.old.items ++ (codes " " ++ word.now)) }
{
    line.push(b' ')?;
    line.extend_from_slice(word)
}

// Three words.
fn words(alloc: Global, first: &[u8], second: &[u8], third: &[u8]) -> Result<Vec<u8>, AllocError>
    ensures { IfOk result (λ v. v.items ≡
        first.now ++ (codes " " ++ (second.now ++ (codes " " ++ third.now)))) }
{
    let mut line = Vec::from_slice(alloc, first)?;
    add_word(&mut line, second)?;
    add_word(&mut line, third)?;
    Ok(line)
}

/// That of a global. `AllocError` only where there is no memory.
pub(crate) fn shared_finding<'a>(
    alloc: Global,
    global: &'a [u8],
    above: &'a [u8],
    below: &'a [u8],
) -> Result<Finding<'a>, AllocError>
    ensures cause { IfOk result (λ x. finding_of x ≡ Shared global.now above.now below.now) }
    ensures line { IfOk result HasLine }
{
    let mut line = words(alloc, b"shared", global, above)?;
    add_word(&mut line, below)?;
    Ok(Finding {
        line,
        cause: Cause::Shared {
            global,
            above,
            below,
        },
    })
}

/// That of an external. `AllocError` only where there is no memory.
pub(crate) fn above_finding<'a>(
    alloc: Global,
    external: &'a [u8],
    caller: &'a [u8],
) -> Result<Finding<'a>, AllocError>
    ensures cause { IfOk result (λ x. finding_of x ≡ Above external.now caller.now) }
    ensures line { IfOk result HasLine }
{
    let line = words(alloc, b"above", external, caller)?;
    Ok(Finding {
        line,
        cause: Cause::Above { external, caller },
    })
}
