// What is read without a construct that stays open.

ghost use Rattle.std.specs.Prelude.{◌≡◌, IfOk, Option, List, false};
ghost use Rattle.c_parser_moves.specs.Words.{put_word, take_words, take_specs, skip_consts, step_of, words_taken, Becomes, SpecsAre, WordsAre};
ghost use Rattle.c_syntax.specs.TypeWords.{with_core, with_word, with_tag, base_of, no_words as no_words_yet, put_sign};

use c_lexer::{Kind, Text, Token, Word};
use c_syntax::{Base, Core, Signedness, Specifiers};
use std::alloc::AllocError;

/// What one more token does to the words of a type.
#[derive(Clone, Copy)]
pub enum Took {
    /// No type has these words.
    Refused,
    /// The token is none of them.
    Ended,
    /// They go on; the flag says that `struct` wants its name.
    More(bool),
}

fn core_with(core: &Core, word: Word) -> Option<Core>
    ensures { result ≡ with_core core.now word }
{
    match (core, word) {
        (Core::Absent, Word::Void) => Some(Core::Void),
        (Core::Absent, Word::Char) => Some(Core::Char),
        (Core::Absent, Word::Short) => Some(Core::Short),
        (Core::Absent, Word::Int) => Some(Core::Int),
        (Core::Absent, Word::Long) => Some(Core::Long),
        (Core::Short, Word::Int) => Some(Core::ShortInt),
        (Core::Int, Word::Short) => Some(Core::ShortInt),
        (Core::Long, Word::Int) => Some(Core::LongInt),
        (Core::Int, Word::Long) => Some(Core::LongInt),
        _ => None,
    }
}

fn add_sign(words: &mut Specifiers, sign: Signedness) -> bool
    ensures { Becomes (put_sign words.old words.old.sign sign) words.old result words.new }
{
    match words.sign {
        Signedness::Absent => {
            words.sign = sign;
            true
        }
        _ => false,
    }
}

fn add_word(words: &mut Specifiers, word: Word) -> bool
    ensures { Becomes (with_word words.old word) words.old result words.new }
{
    match word {
        Word::Const => true,
        Word::Signed => add_sign(words, Signedness::Signed),
        Word::Unsigned => add_sign(words, Signedness::Unsigned),
        Word::Extern | Word::Static => {
            if words.storage {
                return false;
            }
            words.storage = true;
            true
        }
        _ => match core_with(&words.core, word) {
            None => false,
            Some(core) => {
                words.core = core;
                true
            }
        },
    }
}

fn add_tag(words: &mut Specifiers, tag: &Text) -> Result<bool, AllocError>
    ensures { IfOk result (λ b. Becomes (with_tag words.old tag.now) words.old b words.new) }
{
    match words.core {
        Core::Absent => {
            words.core = Core::Struct(tag.share()?);
            Ok(true)
        }
        _ => Ok(false),
    }
}

fn put(words: &mut Specifiers, top: bool, pending: bool, kind: &Kind) -> Result<Took, AllocError>
    ensures { IfOk result (λ t. step_of t words.new ≡ put_word kind.now top pending words.old) }
{
    match kind {
        Kind::Name(tag) if pending => {
            let fits = add_tag(words, tag)?;
            Ok(if fits {
                Took::More(false)
            } else {
                Took::Refused
            })
        }
        _ if pending => Ok(Took::Refused),
        Kind::Word(Word::Struct) => Ok(Took::More(true)),
        Kind::Word(word) => {
            let added = add_word(words, *word);
            if !added {
                Ok(Took::Ended)
            } else if words.storage && !top {
                Ok(Took::Refused)
            } else {
                Ok(Took::More(false))
            }
        }
        _ => Ok(Took::Ended),
    }
}

fn no_words() -> Specifiers
    ensures { result ≡ no_words_yet }
{
    Specifiers {
        core: Core::Absent,
        sign: Signedness::Absent,
        storage: false,
    }
}

/// The words of a type at the prefix of the tokens, and what is after them.
fn words<'a>(
    top: bool,
    tokens: &'a [Token],
) -> Result<Option<(Specifiers, &'a [Token])>, AllocError>
    ensures { IfOk result (λ r. WordsAre r (take_words top false no_words_yet tokens.now)) }
{
    let mut words = no_words();
    let mut pending = false;
    let mut rest = tokens;
    while let [first, others @ ..] = rest {
        match put(&mut words, top, pending, &first.kind)? {
            Took::Refused => return Ok(None),
            Took::Ended => return Ok(Some((words, rest))),
            Took::More(wants_name) => pending = wants_name,
        }
        rest = others;
    }
    if pending {
        Ok(None)
    } else {
        Ok(Some((words, rest)))
    }
}

fn base(words: Specifiers) -> Option<Base>
    ensures { result ≡ base_of words }
{
    let signed = !matches!(words.sign, Signedness::Unsigned);
    let alone = matches!(words.sign, Signedness::Absent);
    match words.core {
        Core::Absent if alone => None,
        Core::Absent | Core::Int => Some(Base::Int { bytes: 4, signed }),
        Core::Void if alone => Some(Base::Void),
        Core::Struct(tag) if alone => Some(Base::Struct(tag)),
        Core::Void | Core::Struct(_) => None,
        Core::Char => Some(Base::Int { bytes: 1, signed }),
        Core::Short | Core::ShortInt => Some(Base::Int { bytes: 2, signed }),
        Core::Long | Core::LongInt => Some(Base::Int { bytes: 8, signed }),
    }
}

/// The type at the prefix of the tokens, and what is after it.
#[tactic(auto, unfolding(crate::specs::Words::take_specs))]
pub fn specs<'a>(top: bool, tokens: &'a [Token]) -> Result<Option<(Base, &'a [Token])>, AllocError>
    ensures { IfOk result (λ r. SpecsAre r (take_specs top tokens.now)) }
{
    match words(top, tokens)? {
        None => Ok(None),
        Some((words, rest)) => match base(words) {
            None => Ok(None),
            Some(base) => Ok(Some((base, rest))),
        },
    }
}

/// What is after the words `const` at the prefix.
pub fn after_consts(tokens: &[Token]) -> &[Token]
    ensures { result.now ≡ skip_consts tokens.now }
{
    let mut rest = tokens;
    while let [first, others @ ..] = rest {
        match &first.kind {
            Kind::Word(Word::Const) => rest = others,
            _ => return rest,
        }
    }
    rest
}

/// How many tokens at the prefix are words of one type.
pub fn words_read(top: bool, tokens: &[Token]) -> Result<usize, AllocError>
    ensures { IfOk result (λ count. count ≡ words_taken top false no_words_yet tokens.now) }
{
    let mut words = no_words();
    let mut pending = false;
    let mut count = 0;
    let mut rest = tokens;
    while let [first, others @ ..] = rest {
        match put(&mut words, top, pending, &first.kind)? {
            Took::More(wants_name) => pending = wants_name,
            Took::Refused | Took::Ended => return Ok(count),
        }
        count += 1;
        rest = others;
    }
    Ok(count)
}
