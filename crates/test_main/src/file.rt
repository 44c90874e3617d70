// A case file: what differs in it, and how many of its cases pass.

use crate::kind::{CaseKind, Subject, kind_of};
use std::alloc::{AllocError, Global};
use std::fs;
use test_cases::{Case, cases_of};
use test_commands::{run_rules, run_script};
use test_memory::Script;

/// Runs the cases of a file, and prints what differs and how many pass. It is an error where no kind has the
/// ending of the name.
pub fn run_file(rt: &HostRuntime, name: &str) -> anyhow::Result<()> {
    let Some(kind) = kind_of(name) else {
        anyhow::bail!("{name}: no kind of case file has this ending");
    };
    let text = fs::read_to_string(rt, name)?;
    let text = text.as_str();
    match kind {
        CaseKind::Cases(subject) => run_cases(rt, subject, name, text),
        CaseKind::Memory => run_calls(rt, name, text),
        CaseKind::Commands => print_report(rt, run_script(rt, name, text)),
        CaseKind::Rules => print_report(rt, run_rules(rt.alloc(), name, text)),
    }
}

/// What the case has otherwise than it wants, by the library that judges its kind.
fn judge(alloc: Global, subject: Subject, case: &Case<'_>) -> Result<Option<String>, AllocError> {
    match subject {
        Subject::Trees => test_trees::judge(alloc, case),
        Subject::Marks => test_marks::judge(alloc, case),
        Subject::Scripts => test_scripts::judge(alloc, case),
        Subject::Stubs => test_stubs::judge(alloc, case),
        Subject::Reports => test_reports::judge(alloc, case),
        Subject::Recordings => test_recordings::judge(alloc, case),
    }
}

/// Prints each case that differs, and how many don't.
fn run_cases(rt: &HostRuntime, subject: Subject, name: &str, text: &str) -> anyhow::Result<()> {
    let cases = cases_of(rt.alloc(), text)?;
    let mut passed: usize = 0;
    for case in &cases {
        match judge(rt.alloc(), subject, case)? {
            None => passed = passed.saturating_add(1),
            Some(found) => println!(rt; "{name}: {}: {found}", case.name)?,
        }
    }
    println!(rt; "{name}: {passed} of {}", cases.len())?;
    Ok(())
}

/// Prints each line of a script of calls whose answer is another, and how many cases have none.
fn run_calls(rt: &HostRuntime, name: &str, text: &str) -> anyhow::Result<()> {
    let mut script = Script::new(rt.alloc())?;
    let mut number: u64 = 0;
    for line in text.lines() {
        number = number.saturating_add(1);
        if let Some(found) = script.take(rt.alloc(), line)? {
            println!(rt; "{name}:{number}: {found}")?;
        }
    }
    println!(rt; "{name}: {} of {}", script.passed(), script.cases())?;
    Ok(())
}

/// Prints the lines that a library made of a file.
fn print_report(rt: &HostRuntime, report: Result<String, AllocError>) -> anyhow::Result<()> {
    rt.print(report?)?;
    Ok(())
}
