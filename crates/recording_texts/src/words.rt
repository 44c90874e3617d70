//! The words of faults, breaches and halts.

ghost use Rattle.std.specs.Prelude.{◌≡◌, ◌++◌, OnOk, codes};
ghost use Rattle.std.specs.Option.{option_copied};
ghost use Rattle.call_inspector.specs.EventText.{fault_from, fault_text};
ghost use Rattle.whole_runs.specs.declared.ending.Halt.TheVariants.{Script};
ghost use Rattle.recording_texts.specs.Endings.{breach_from, breach_text, breach_words, fault_words, halt_words, name_of, other_words};

use c_code::{Code, FuncInfo};
use marks::{BreachKind, FaultKind};
use r2_base::{put_dec, put_hex};
use std::alloc::AllocError;
use whole_runs::Halt;

/// The fault with the number.
fn fault_from(number: u8) -> Option<FaultKind>
    ensures { result ≡ fault_from number }
{
    match number {
        1 => Some(FaultKind::Divide),
        2 => Some(FaultKind::Shift),
        3 => Some(FaultKind::NotLive),
        4 => Some(FaultKind::ReadOnly),
        5 => Some(FaultKind::StackFull),
        6 => Some(FaultKind::BadCall),
        _ => None,
    }
}

/// Its word.
fn fault_word(number: u8) -> &'static str
    ensures { result.now ≡ fault_text (fault_from number) }
{
    match fault_from(number) {
        Some(kind) => kind.word(),
        None => "",
    }
}

/// The breach with the number.
fn breach_from(number: u8) -> Option<BreachKind>
    ensures { result ≡ breach_from number }
{
    match number {
        1 => Some(BreachKind::Race),
        2 => Some(BreachKind::Pending),
        3 => Some(BreachKind::OtherSpace),
        4 => Some(BreachKind::Size),
        5 => Some(BreachKind::Mode),
        6 => Some(BreachKind::KeyInUse),
        7 => Some(BreachKind::NoKey),
        _ => None,
    }
}

/// Its word.
fn breach_word(number: u8) -> &'static str
    ensures { result.now ≡ breach_text (breach_from number) }
{
    match breach_from(number) {
        Some(kind) => kind.word(),
        None => "",
    }
}

/// Adds the word of a fault and the thread that met it.
pub fn put_fault(words: &mut Vec<u8>, kind: u8, thread: u8) -> Result<(), AllocError>
    ensures { OnOk result (words.new.items ≡ words.old.items ++ fault_words kind thread) }
{
    words.extend_from_slice(fault_word(kind).as_bytes())?;
    words.extend_from_slice(b" thread ")?;
    put_dec(words, i128::from(thread))
}

/// Adds the other thread of a race.
fn put_other(words: &mut Vec<u8>, other: Option<u8>) -> Result<(), AllocError>
    ensures { OnOk result (words.new.items ≡ words.old.items ++ other_words other) }
{
    let Some(thread) = other else {
        return Ok(());
    };
    words.extend_from_slice(b" other ")?;
    put_dec(words, i128::from(thread))
}

/// Adds the word of a breach, the thread that was to make it, what shows it, and the other thread of a race.
pub fn put_breach(
    words: &mut Vec<u8>,
    kind: u8,
    thread: u8,
    addr: u64,
    other: Option<u8>,
) -> Result<(), AllocError>
    ensures { OnOk result (words.new.items ≡ words.old.items ++ breach_words kind thread addr other) }
{
    words.extend_from_slice(breach_word(kind).as_bytes())?;
    words.extend_from_slice(b" thread ")?;
    put_dec(words, i128::from(thread))?;
    words.extend_from_slice(b" addr 0x")?;
    put_hex(words, addr)?;
    put_other(words, other)
}

/// Adds the name of a function that the code knows.
fn put_name(words: &mut Vec<u8>, info: Option<&FuncInfo>) -> Result<(), AllocError>
    ensures { OnOk result (words.new.items ≡ words.old.items ++ name_of (option_copied info.entry)) }
{
    let Some(info) = info else {
        return Ok(());
    };
    words.extend_from_slice(info.name.as_slice())
}

/// Adds the function whose answer is missing.
fn put_script(words: &mut Vec<u8>, code: &Code, func: u16) -> Result<(), AllocError>
    ensures { OnOk result (words.new.items ≡ words.old.items ++ halt_words code.now (Script func)) }
{
    words.extend_from_slice(b"script ")?;
    put_name(words, code.func(func))
}

/// Adds the fault of code below the cut.
fn put_system(words: &mut Vec<u8>, kind: u8, thread: u8) -> Result<(), AllocError>
    ensures { OnOk result (words.new.items ≡ words.old.items ++ codes "system " ++ fault_words kind thread) }
{
    words.extend_from_slice(b"system ")?;
    put_fault(words, kind, thread)
}

/// Adds why the run was halted.
pub fn put_halt(words: &mut Vec<u8>, code: &Code, why: Halt) -> Result<(), AllocError>
    ensures { OnOk result (words.new.items ≡ words.old.items ++ halt_words code.now why) }
{
    match why {
        Halt::Budget => words.extend_from_slice(b"budget"),
        Halt::Blocked => words.extend_from_slice(b"blocked"),
        Halt::Script(func) => put_script(words, code, func),
        Halt::System { kind, thread } => put_system(words, kind, thread),
        Halt::Events => words.extend_from_slice(b"events"),
        Halt::Full => words.extend_from_slice(b"full"),
    }
}
