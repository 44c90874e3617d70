//! The texts of events.

ghost use Rattle.std.specs.Prelude.{◌≡◌, ◌++◌, OnOk, codes, decimal, flat_map};
ghost use Rattle.std.specs.Option.{option_copied};
ghost use Rattle.call_inspector.specs.EventText.{address_text, piece_text, call_text, return_text, info_of, fault_from, fault_text, reason_text, detail_text};
ghost use Rattle.call_inspector.specs.Open.{innermost};
ghost use Rattle.c_code.specs.Machine.{func_of};

use crate::crossings::Crossings;
use crate::values::{put_address, put_args, put_piece, put_result};
use c_code::{Code, FuncInfo};
use marks::FaultKind;
use r2_base::put_dec;
use run_events::{Bytes, Event, Reason};
use std::alloc::AllocError;

/// Adds the name of the function and the arguments.
fn put_call(text: &mut Vec<u8>, info: Option<&FuncInfo>, args: &[u64]) -> Result<(), AllocError>
    ensures { OnOk result (text.new.items ≡ text.old.items ++
        call_text (option_copied info.entry) args.now) }
{
    let Some(info) = info else {
        return Ok(());
    };
    text.extend_from_slice(info.name.as_slice())?;
    text.push(b'(')?;
    put_args(text, info.params.as_slice(), args)?;
    text.push(b')')?;
    Ok(())
}

/// Adds the name of the function and its result.
fn put_return(text: &mut Vec<u8>, info: Option<&FuncInfo>, value: u64) -> Result<(), AllocError>
    ensures { OnOk result (text.new.items ≡ text.old.items ++ return_text (option_copied info.entry) value) }
{
    let Some(info) = info else {
        return Ok(());
    };
    text.extend_from_slice(info.name.as_slice())?;
    put_result(text, info.result, value)
}

/// What the code knows of the function that a return closes.
fn closed<'a>(code: &'a Code, active: &Crossings) -> Option<&'a FuncInfo>
    ensures { option_copied result ≡ info_of code.now (innermost active.now) }
{
    match active.innermost() {
        Some(func) => code.func(func),
        None => None,
    }
}

/// Adds the pieces of a return.
fn put_pieces(text: &mut Vec<u8>, pieces: &[Bytes]) -> Result<(), AllocError>
    ensures { OnOk result (text.new.items ≡ text.old.items ++ flat_map piece_text pieces.now) }
{
    for piece in pieces {
        put_piece(text, piece.as_slice())?;
    }
    Ok(())
}

/// The fault with the number.
fn fault_from(number: u8) -> Option<FaultKind>
    ensures { result ≡ fault_from number }
{
    match number {
        1 => Some(FaultKind::Divide),
        2 => Some(FaultKind::Shift),
        3 => Some(FaultKind::NotLive),
        4 => Some(FaultKind::ReadOnly),
        5 => Some(FaultKind::StackFull),
        6 => Some(FaultKind::BadCall),
        _ => None,
    }
}

/// The word of the fault with the number.
pub fn fault_word(number: u8) -> &'static str
    ensures { result.now ≡ fault_text (fault_from number) }
{
    match fault_from(number) {
        Some(kind) => kind.word(),
        None => "",
    }
}

fn reason_word(reason: Reason) -> &'static str
    ensures { result.now ≡ reason_text reason }
{
    match reason {
        Reason::Halted => "halted",
        Reason::Fault(number) => fault_word(number),
    }
}

/// Adds the size and the address of a block.
fn put_block(text: &mut Vec<u8>, size: u64, addr: u64) -> Result<(), AllocError>
    ensures { OnOk result (text.new.items ≡ text.old.items ++
        (decimal size ++ codes " = " ++ address_text addr)) }
{
    put_dec(text, i128::from(size))?;
    text.extend_from_slice(b" = ")?;
    put_address(text, addr)
}

/// Adds what the text of an event has after the word of its kind, where these calls and callbacks are open.
pub fn put_detail(
    text: &mut Vec<u8>,
    code: &Code,
    active: &Crossings,
    event: &Event,
) -> Result<(), AllocError>
    ensures { OnOk result (text.new.items ≡ text.old.items ++ detail_text code.now active.now event.now) }
{
    match event {
        Event::Call { func, args } | Event::Up { func, args } => {
            let args = args.unpacked();
            put_call(text, code.func(*func), args.as_slice())
        }
        Event::Ret { result, outs, .. } => {
            put_return(text, closed(code, active), *result)?;
            put_pieces(text, outs.as_slice())
        }
        Event::UpRet { result } => put_return(text, closed(code, active), *result),
        Event::Alloc { size, addr } => put_block(text, *size, *addr),
        Event::Free { addr } => put_address(text, *addr),
        Event::Stop { reason } => text.extend_from_slice(reason_word(*reason).as_bytes()),
    }
}
