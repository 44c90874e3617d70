//! The turns of a schedule.

ghost use Rattle.std.specs.Prelude.{◌≡◌, ◌∷◌, ◌++◌, ◌<◌, ◌≤◌, ℕ, List, [], length, IfSome};
ghost use Rattle.std.specs.Option.{option_map};
ghost use Rattle.sys_script_lines.specs.Each.{before, each};
ghost use Rattle.sys_script_lines.specs.Says.{Says};
ghost use Rattle.sys_script_lines.specs.Numbers.{IsLeading};
ghost use Rattle.sys_script_lines.specs.Parts.{parts};
ghost use Rattle.sys_script_lines.specs.Turns.{thread, turn};

use crate::cut::{cut, cut_near};
use crate::error::Wrong;
use crate::number::number;
use run_events::LOG_THREADS;
use std::alloc::Global;
use system_side::Schedule;

/// How many steps one turn has at most.
const MOST_STEPS: u32 = 1_000_000;

/// The number of a thread.
fn thread(text: &[u8]) -> Option<u8>
    ensures { result ≡ thread text.now }
{
    let thread = number(text, 0, u64::from(LOG_THREADS) - 1)?;
    Some(thread as u8)
}

/// One turn: a thread and its number of steps, which is 1 where none is given.
fn turn(word: &[u8]) -> Option<(u8, u32)>
    ensures { result ≡ turn word.now }
{
    match cut_near(word, b'*') {
        None => {
            let thread = thread(word)?;
            Some((thread, 1))
        }
        Some((before, after)) => {
            let thread = thread(before)?;
            let steps = number(after, 1, u64::from(MOST_STEPS))?;
            Some((thread, steps as u32))
        }
    }
}

/// The number with one digit more, the first of the text, and what follows that digit. No digit goes on a 0, nor on a number that
/// is greater than any number of steps.
#[inline(always)]
fn with_next(number: u32, text: &[u8]) -> Option<(u32, &[u8])>
    ensures leading { (all : List ℕ) → IsLeading all number text.now →
        IfSome result (λ x. IsLeading all x.0 x.1.now) }
    ensures shorter { IfSome result (λ x. length x.1.now < length text.now) }
{
    match text {
        [digit, after @ ..] if digit.is_ascii_digit() && number > 0 && number <= MOST_STEPS => {
            Some((number * 10 + u32::from(*digit - b'0'), after))
        }
        _ => None,
    }
}

/// The number with which the text begins, and what follows it.
#[inline(always)]
fn leading(text: &[u8]) -> Option<(u32, &[u8])>
    ensures leading { IfSome result (λ x. IsLeading text.now x.0 x.1.now) }
    ensures shorter { IfSome result (λ x. length x.1.now < length text.now) }
{
    let (mut number, mut rest) = match text {
        [digit, after @ ..] if digit.is_ascii_digit() => (u32::from(*digit - b'0'), after),
        _ => return None,
    };
    while let Some((more, after)) = with_next(number, rest) {
        number = more;
        rest = after;
    }
    Some((number, rest))
}

/// The number of steps with which the text begins, and what follows the blank after it.
#[inline(always)]
fn leading_steps(text: &[u8]) -> Option<(u32, &[u8])>
    ensures leading { IfSome result (λ x. IsLeading text.now x.0 (32 ∷ x.1.now)) }
    ensures range { IfSome result (λ x. (1 ≤ x.0) × (x.0 ≤ 1000000)) }
    ensures shorter { IfSome result (λ x. length x.1.now < length text.now) }
{
    let (steps, rest) = leading(text)?;
    match rest {
        [b' ', after @ ..] if 1 <= steps && steps <= MOST_STEPS => Some((steps, after)),
        _ => None,
    }
}

/// The turn with which the words begin, and what follows the blank after it, by one look at each byte. `None` where no blank ends
/// the turn, and where the first word is no turn.
#[inline(always)]
fn longer_turn(words: &[u8]) -> Option<((u8, u32), &[u8])>
    ensures turn { IfSome result (λ x. each turn (parts 32 words.now) ≡
        before (each turn (parts 32 x.1.now)) x.0) }
    ensures shorter { IfSome result (λ x. length x.1.now < length words.now) }
{
    let (thread, rest) = leading(words)?;
    if thread >= u32::from(LOG_THREADS) {
        return None;
    }
    match rest {
        [b' ', after @ ..] => Some(((thread as u8, 1), after)),
        [b'*', steps @ ..] => {
            let (steps, after) = leading_steps(steps)?;
            Some(((thread as u8, steps), after))
        }
        _ => None,
    }
}

/// The same, where the turn is mostly one digit, the thread's.
#[inline(always)]
fn leading_turn(words: &[u8]) -> Option<((u8, u32), &[u8])>
    ensures turn { IfSome result (λ x. each turn (parts 32 words.now) ≡
        before (each turn (parts 32 x.1.now)) x.0) }
    ensures shorter { IfSome result (λ x. length x.1.now < length words.now) }
{
    match words {
        [digit, next, after @ ..] if digit.is_ascii_digit() => {
            if *next == b' ' {
                Some(((*digit - b'0', 1), after))
            } else {
                longer_turn(words)
            }
        }
        _ => None,
    }
}

/// Adds the turns of several words, each of which is cut off first.
#[tactic(auto, using(crate::proofs::Joined::each_goes_on, crate::proofs::Joined::each_stops, crate::proofs::Joined::each_ends))]
fn add_turns(turns: &mut Schedule, words: &[u8]) -> Result<(), Wrong>
    ensures { Says (λ _. turns.new) result
        (option_map (λ more. turns.old ++ more) (each turn (parts 32 words.now))) }
{
    let mut rest = words;
    while let Some((word, after)) = cut(rest, b' ') {
        let Some((thread, steps)) = turn(word) else {
            return Err(Wrong::Text);
        };
        turns.push(thread, steps)?;
        rest = after;
    }
    let Some((thread, steps)) = turn(rest) else {
        return Err(Wrong::Text);
    };
    turns.push(thread, steps)?;
    Ok(())
}

/// The turns of several words. All but the last mostly need no cut.
pub(crate) fn turns(alloc: Global, words: &[u8]) -> Result<Schedule, Wrong>
    ensures { Says (λ s. s) result (each turn (parts 32 words.now)) }
{
    // Each turn but the last takes two bytes at least.
    let mut turns = Schedule::with_capacity(alloc, words.len() / 2 + 1)?;
    let mut rest = words;
    while let Some(((thread, steps), after)) = leading_turn(rest) {
        turns.push(thread, steps)?;
        rest = after;
    }
    add_turns(&mut turns, rest)?;
    Ok(turns)
}
