//! Answers of functions.

ghost use Rattle.std.specs.Prelude.{◌≡◌, Some, [], true, OnOk};
ghost use Rattle.sys_script_lines.specs.Answers.{HasLast, answer, answer_by, answer_of, result_in, with_answer};
ghost use Rattle.std.specs.Option.{option_and_then};
ghost use Rattle.system_side.specs.AnswerLists.{last_pieces};
ghost use Rattle.sys_script_lines.specs.Each.{each};
ghost use Rattle.sys_script_lines.specs.Pieces.{piece};
ghost use Rattle.sys_script_lines.specs.Externals.{named_in};
ghost use Rattle.sys_script_lines.specs.Parts.{parts};
ghost use Rattle.sys_script_lines.specs.Says.{Says};

use crate::cut::cut_near;
use crate::error::Wrong;
use crate::externals::External;
use crate::finder::Finder;
use crate::number::number;
use crate::piece::pieces;
use std::alloc::Global;
use std::marker::Model;
use system_side::{Answers, AnswersSoFar};

/// The answers so far. It keeps how the pieces of the last one are spelled, since answers that follow one another often have the same:
/// such an answer repeats the last one's pieces, and none are read.
#[derive(Drop)]
pub(crate) struct AnswersRead<'a> {
    answers: AnswersSoFar,
    // How the pieces of the last answer are spelled, and how many they are; 0 where nothing is kept.
    words: &'a [u8],
    count: usize,
}

impl<'a> Model for AnswersRead<'a> {
    ghost use Rattle.std.specs.Prelude.{List};
    ghost use Rattle.system_side.specs.declared.file.Scripted.{Scripted};
    ghost use Rattle.sys_script_lines.specs.Answers.{IsSpelled};

    ghost Value = { List Scripted };

    ghost view = { λ a. a.answers.ended };

    ghost invariant = { λ a. IsSpelled a.words.now a.count a.answers.ended };
}

/// The result that the text spells, as a 64-bit two's complement pattern.
#[inline(always)]
fn result_of(external: External, text: &[u8]) -> Option<u64>
    ensures { result ≡ result_in external text.now }
{
    match text {
        [b'-', digits @ ..] => {
            let number = number(digits, 1, external.below)?;
            Some(u64::MAX - number + 1)
        }
        _ => number(text, 0, external.most),
    }
}

/// Ends the answer whose pieces these are so far.
#[inline(always)]
fn end_answer(answers: &mut AnswersSoFar, external: External, number: &[u8]) -> Result<(), Wrong>
    ensures ended { Says (λ _. answers.new.ended) result
        (with_answer answers.old.ended (answer_by external number.now answers.old.begun)) }
    ensures last { OnOk result (HasLast answers.new.ended answers.old.begun external.pieces) }
{
    if answers.count() != external.pieces {
        return Err(Wrong::Text);
    }
    let Some(result) = result_of(external, number) else {
        return Err(Wrong::Text);
    };
    answers.end(external.func, result)?;
    Ok(())
}

/// Adds an answer with the pieces of the last one, of which there are as many as the function asks.
#[inline(always)]
fn repeat_answer(answers: &mut AnswersSoFar, external: External, number: &[u8]) -> Result<(), Wrong>
    requires { HasLast answers.old.ended (last_pieces answers.old.ended) external.pieces }
    ensures ended { Says (λ _. answers.new.ended) result
        (with_answer answers.old.ended (answer_by external number.now (last_pieces answers.old.ended))) }
    ensures last { HasLast answers.new.ended (last_pieces answers.old.ended) external.pieces }
{
    let Some(result) = result_of(external, number) else {
        return Err(Wrong::Text);
    };
    answers.repeat(external.func, result)?;
    Ok(())
}

/// Whether two texts are the same. Most are one byte.
#[inline(always)]
fn is_same(one: &[u8], other: &[u8]) -> bool
    ensures { result ≡ true → one.now ≡ other.now }
{
    match (one, other) {
        ([byte], [same]) => *byte == *same,
        _ => one == other,
    }
}

impl<'a> AnswersRead<'a> {
    /// No answers. Those to come have their words in this text.
    #[tactic(auto, using(crate::proofs::Repeats::none_spelled))]
    pub(crate) fn new(alloc: Global, text: &'a [u8]) -> AnswersRead<'a>
        ensures { result ≡ [] }
    {
        AnswersRead {
            answers: AnswersSoFar::new(alloc),
            words: text,
            count: 0,
        }
    }

    // Whether these words spell the pieces of the last answer, and as many as the function asks.
    #[inline(always)]
    fn is_repeated(&self, external: External, words: &[u8]) -> bool
        ensures spelled { result ≡ true → each piece (parts 32 words.now) ≡ Some (last_pieces self.now) }
        ensures last { result ≡ true → HasLast self.now (last_pieces self.now) external.pieces }
    {
        self.count > 0 && self.count == external.pieces && is_same(words, self.words)
    }

    // Adds the answer whose result this number is, and reads its pieces from these words.
    #[inline(always)]
    #[tactic(auto, using(crate::proofs::Repeats::now_spelled, crate::proofs::Repeats::none_spelled))]
    fn read_pieces(
        &mut self,
        alloc: Global,
        external: External,
        number: &[u8],
        words: &'a [u8],
    ) -> Result<(), Wrong>
        ensures { Says (λ _. self.new) result (with_answer self.old
            (option_and_then (answer_by external number.now) (each piece (parts 32 words.now)))) }
    {
        self.count = 0;
        pieces(alloc, &mut self.answers, words)?;
        end_answer(&mut self.answers, external, number)?;
        self.words = words;
        self.count = external.pieces;
        Ok(())
    }

    // Adds the answer whose result this number is, and whose pieces these words are.
    #[inline(always)]
    #[tactic(auto, using(crate::proofs::Repeats::still_spelled))]
    fn add_pieces(
        &mut self,
        alloc: Global,
        external: External,
        number: &[u8],
        words: &'a [u8],
    ) -> Result<(), Wrong>
        ensures { Says (λ _. self.new) result (with_answer self.old
            (option_and_then (answer_by external number.now) (each piece (parts 32 words.now)))) }
    {
        if self.is_repeated(external, words) {
            return repeat_answer(&mut self.answers, external, number);
        }
        self.read_pieces(alloc, external, number, words)
    }

    // Adds the answer of a function whose words after its name these are.
    #[inline(always)]
    #[tactic(auto, using(crate::proofs::Repeats::none_spelled))]
    fn add_answer(
        &mut self,
        alloc: Global,
        external: External,
        words: &'a [u8],
    ) -> Result<(), Wrong>
        ensures { Says (λ _. self.new) result
            (with_answer self.old (answer_of external (parts 32 words.now))) }
    {
        match cut_near(words, b' ') {
            None => {
                self.count = 0;
                self.answers.begin();
                end_answer(&mut self.answers, external, words)
            }
            Some((result, words)) => self.add_pieces(alloc, external, result, words),
        }
    }

    /// Adds the answer whose words these are: the function's name, its result, and its pieces.
    #[inline(never)]
    pub(crate) fn add(
        &mut self,
        alloc: Global,
        finder: &mut Finder<'a>,
        words: &'a [u8],
    ) -> Result<(), Wrong>
        ensures answer { Says (λ _. self.new) result
            (with_answer self.old (answer (named_in finder.old.externals.now) (parts 32 words.now))) }
        ensures same { finder.new.externals.now ≡ finder.old.externals.now }
    {
        let Some((found, rest)) = finder.cut(words) else {
            return Err(Wrong::Text);
        };
        let Some(external) = found else {
            return Err(Wrong::Text);
        };
        self.add_answer(alloc, *external, rest)
    }

    /// The answers that were added.
    pub(crate) fn finish(self) -> Answers
        ensures { result ≡ self.entry }
    {
        let AnswersRead {
            answers,
            words: _,
            count: _,
        } = self;
        answers.finish()
    }
}
