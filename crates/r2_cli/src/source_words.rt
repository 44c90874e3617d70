//! The words that say what is wrong with a source.

ghost use Rattle.std.specs.Prelude.{◌≡◌, ◌++◌, IfOk, OnOk, codes, decimal};
ghost use Rattle.r2_cli.specs.Source.{limit_number, limit_word, no_cut_words, rule_words, source_words};

use c_types::Which;
use front_end::{SourceFault, SourceLimit, SourceRule};
use r2_base::put_dec;
use source_limits::{
    GREATEST_FRAME, GREATEST_OBJECT, MOST_FUNCTIONS, MOST_MEMBERS, MOST_NODES, MOST_PARAMS,
    MOST_VALUES,
};
use std::alloc::{AllocError, Global};

/// Adds `rule NUMBER`.
fn put_type_rule(words: &mut Vec<u8>, number: u8) -> Result<(), AllocError>
    ensures { OnOk result (words.new.items ≡ words.old.items ++ codes "rule " ++ decimal number) }
{
    words.extend_from_slice(b"rule ")?;
    put_dec(words, i128::from(number))
}

/// Adds `annotation NUMBER`.
fn put_annotation_rule(words: &mut Vec<u8>, number: u8) -> Result<(), AllocError>
    ensures { OnOk result (words.new.items ≡ words.old.items ++ codes "annotation " ++ decimal number) }
{
    words.extend_from_slice(b"annotation ")?;
    put_dec(words, i128::from(number))
}

/// Adds the words of a rule.
fn put_rule(words: &mut Vec<u8>, rule: SourceRule) -> Result<(), AllocError>
    ensures { OnOk result (words.new.items ≡ words.old.items ++ rule_words rule) }
{
    match rule {
        SourceRule::Byte => words.extend_from_slice(b"byte"),
        SourceRule::Text => words.extend_from_slice(b"text"),
        SourceRule::Number => words.extend_from_slice(b"number"),
        SourceRule::Directive => words.extend_from_slice(b"directive"),
        SourceRule::Token => words.extend_from_slice(b"token"),
        SourceRule::Deep => words.extend_from_slice(b"deep"),
        SourceRule::Type(number) => put_type_rule(words, number),
        SourceRule::Annotation(number) => put_annotation_rule(words, number),
    }
}

/// The words `source AT RULE`.
pub fn fault_words(alloc: Global, fault: SourceFault) -> Result<Vec<u8>, AllocError>
    ensures { IfOk result (λ words. words.items ≡ source_words fault.rule fault.at) }
{
    let mut words = Vec::from_slice(alloc, b"source ")?;
    put_dec(&mut words, i128::from(fault.at))?;
    words.push(b' ')?;
    put_rule(&mut words, fault.rule)?;
    Ok(words)
}

/// The words `no cut CUT`.
pub fn cut_words(alloc: Global, cut: &str) -> Result<Vec<u8>, AllocError>
    ensures { IfOk result (λ words. words.items ≡ no_cut_words cut.now) }
{
    let mut words = Vec::from_slice(alloc, b"no cut ")?;
    words.extend_from_slice(cut.as_bytes())?;
    Ok(words)
}

/// The word of a limit.
pub fn limit_word(limit: SourceLimit) -> &'static str
    ensures { result.now ≡ limit_word limit }
{
    match limit {
        SourceLimit::Types(Which::Functions) => "functions",
        SourceLimit::Types(Which::Params) => "params",
        SourceLimit::Types(Which::Members) => "members",
        SourceLimit::Types(Which::Object) => "object",
        SourceLimit::Types(Which::Globals) => "globals",
        SourceLimit::Types(Which::Frame) => "frame",
        SourceLimit::Nodes => "code",
        SourceLimit::Values => "values",
    }
}

/// Its number, as it is tested.
pub fn limit_number(limit: SourceLimit) -> usize
    ensures { result ≡ limit_number limit }
{
    match limit {
        SourceLimit::Types(Which::Functions) => MOST_FUNCTIONS,
        SourceLimit::Types(Which::Params) => MOST_PARAMS,
        SourceLimit::Types(Which::Members) => MOST_MEMBERS,
        SourceLimit::Types(Which::Object) => GREATEST_OBJECT as usize,
        SourceLimit::Types(Which::Globals) => GREATEST_OBJECT as usize,
        SourceLimit::Types(Which::Frame) => GREATEST_FRAME as usize,
        SourceLimit::Nodes => MOST_NODES,
        SourceLimit::Values => MOST_VALUES as usize,
    }
}
