// The tokens of a source.

ghost use Rattle.std.specs.Prelude.{◌≡◌, ◌≢◌, ◌↔◌, ℕ, ◌≤◌, List, ◌++◌, ◌∷◌, [], length, Some, Err, IfOk, IfErr, OnOk, IsOk};
ghost use Rattle.std.specs.Result.{IsErrOf};
ghost use Rattle.source_limits.specs.Limits.{most_bytes};
ghost use Rattle.c_lexer.specs.declared.token.Sign.{Sign};
ghost use Rattle.c_lexer.specs.Signs.{sign_at, IsLongest};
ghost use Rattle.c_lexer.specs.Lexing.{IsTokens, IsLexError, Refuses, InOrder, HasReading, OneReading};

use crate::error::LexError;
use crate::item::{Item, after_space, item_at};
use crate::names::Names;
use crate::token::Token;
use std::alloc::{AllocError, Global};

fn put(tokens: &mut Vec<Token>, token: Token) -> Result<(), AllocError>
    ensures { OnOk result (tokens.new.items ≡ tokens.old.items ++ token ∷ []) }
{
    tokens.push(token)?;
    Ok(())
}

fn read_tokens(alloc: Global, source: &[u8]) -> Result<Vec<Token>, LexError>
    requires { length source.now ≤ most_bytes }
    ensures tokens { IfOk result (λ v. IsTokens source.now v.items) }
    ensures places { IfOk result (λ v. InOrder 0 v.items (length source.now)) }
    ensures refused { IfErr result (Refuses source.now) }
{
    let mut names = Names::new(alloc)?;
    let mut tokens: Vec<Token> = Vec::new(alloc);
    let mut rest = source;
    let mut at: usize = 0;
    let mut fresh = true;
    loop {
        if let Some((line, others)) = after_space(fresh, rest) {
            rest = others;
            at += 1;
            fresh = line;
            continue;
        }
        match item_at(alloc, &mut names, fresh, rest)? {
            Item::Finished => return Ok(tokens),
            Item::Fault(fault, len) => return Err(LexError::new(fault, (at + len) as u32)),
            Item::Skip(len, line) => {
                rest = rest.split_at(len).1;
                at += len;
                fresh = line;
            }
            Item::Token(len, kind) => {
                let token = Token {
                    kind,
                    from: at as u32,
                    to: (at + len) as u32,
                };
                put(&mut tokens, token)?;
                rest = rest.split_at(len).1;
                at += len;
                fresh = false;
            }
        }
    }
}

/// The tokens of a source of at most 1 MiB in their order, the longest at each place (C11 6.4).
///
/// Each error but `Memory` has the offset of the first rule that the source breaks.
pub fn lex(alloc: Global, source: &[u8]) -> Result<Vec<Token>, LexError>
    requires { length source.now ≤ most_bytes }
    ensures tokens { IfOk result (λ v. IsTokens source.now v.items) }
    ensures places { IfOk result (λ v. InOrder 0 v.items (length source.now)) }
    ensures ok { result ≢ Err LexError.Memory →
        (IsOk result ↔ ((ts : List Token) × IsTokens source.now ts)) }
    ensures bad_byte { (at : ℕ) → result ≢ Err LexError.Memory →
        (IsErrOf result (LexError.BadByte at) ↔ IsLexError source.now (LexError.BadByte at)) }
    ensures open_text { (at : ℕ) → result ≢ Err LexError.Memory →
        (IsErrOf result (LexError.OpenText at) ↔ IsLexError source.now (LexError.OpenText at)) }
    ensures big_number { (at : ℕ) → result ≢ Err LexError.Memory →
        (IsErrOf result (LexError.BigNumber at) ↔ IsLexError source.now (LexError.BigNumber at)) }
    ensures directive { (at : ℕ) → result ≢ Err LexError.Memory →
        (IsErrOf result (LexError.Directive at) ↔ IsLexError source.now (LexError.Directive at)) }
{
    read_tokens(alloc, source)
}

/// A law: a source has exactly one reading, its tokens up to its end or to the first broken rule.
pub fn one_reading()
    ensures at_least { (source : List ℕ) → HasReading source }
    ensures at_most { OneReading }
{}

/// A law: the sign that is read at a place is the longest that the bytes there begin with.
pub fn longest_sign()
    ensures { (bytes : List ℕ) (sign : Sign) → sign_at bytes ≡ Some sign → IsLongest bytes sign }
{}
