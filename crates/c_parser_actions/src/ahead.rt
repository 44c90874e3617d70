// What the parser must know of the tokens ahead, found once for all of them.

ghost use Rattle.std.specs.Prelude.{◌≡◌, Some, IfOk, OnOk, length, reverse};
ghost use Rattle.std.specs.List.{slice_get};
ghost use Rattle.c_parser_moves.specs.Words.{lists};
ghost use Rattle.c_parser_actions.specs.Ahead.{Foretells, nearest as nearest_of, met};

use c_lexer::Token;
use c_parser_moves::{Punctuator, mark_kind, type_first};
use std::alloc::{AllocError, Global};

/// Whether a type follows the nearest of them.
fn nearest(closers: &[bool]) -> bool
    ensures { result ≡ nearest_of (reverse closers.now) }
{
    match closers {
        [] => false,
        [.., typed] => *typed,
    }
}

fn meet(closers: &mut Vec<bool>, mark: Punctuator, typed: bool) -> Result<(), AllocError>
    ensures { OnOk result (reverse closers.new.items ≡ met mark typed (reverse closers.old.items)) }
{
    match mark {
        Punctuator::CloseBracket => closers.push(typed)?,
        Punctuator::OpenBracket => {
            let _ = closers.pop();
        }
        _ => {}
    }
    Ok(())
}

/// At each token, by how many are left after it, whether a square bracket there is that of annotations: a
/// type follows the one that closes it.
///
/// One pass from the end, over which the square brackets that close wait for those that they close.
pub fn look_ahead(alloc: Global, tokens: &[Token]) -> Result<Vec<bool>, AllocError>
    ensures { IfOk result (λ v. Foretells v.items tokens.now) }
{
    let mut table: Vec<bool> = Vec::new(alloc);
    let mut closers: Vec<bool> = Vec::new(alloc);
    for at in (0..tokens.len()).rev() {
        let (_, others) = tokens.split_at(at + 1);
        table.push(nearest(&closers))?;
        meet(
            &mut closers,
            mark_kind(&tokens[at].kind),
            type_first(others),
        )?;
    }
    Ok(table)
}

/// Whether the square bracket before these tokens is that of annotations.
#[tactic(auto, using(std::proofs::lemmas::Option::slice_get_within, std::proofs::lemmas::Option::get_or_from_slice_get))]
pub fn annots_follow(ahead: &[bool], tokens: &[Token]) -> bool
    requires { slice_get ahead.now (length tokens.now) ≡ Some (lists tokens.now) }
    ensures { result ≡ lists tokens.now }
{
    ahead[tokens.len()]
}
