//! Lowering.

ghost use Rattle.std.specs.Prelude.{◌≡◌, ◌↔◌, ◌*◌, ◌<◌, ◌≤◌, ◌^◌, ℕ, None, Some, IfOk, OnOk, length};
ghost use Rattle.source_limits.specs.Limits.{most_nodes};
ghost use Rattle.c_code.specs.Typed.{KeepsTypes};
ghost use Rattle.c_semantics.specs.Context.{Source};
ghost use Rattle.c_lower_placement.specs.Laws.{MakesTheMarks, laid};
ghost use Rattle.c_lower_laws.specs.Fits.{IsFit};
ghost use Rattle.c_lower.specs.Lowered.{IsSourceOf, lowered};
ghost use Rattle.c_lower.specs.Named.{NamesNoMore};
ghost use Rattle.c_lower.specs.Types.{TellsTypes};
ghost use Rattle.c_lower.specs.Depths.{first_wide as first_wide_of, functions_in};

use crate::error::LowerError;
use crate::functions::{builtin_infos, function_info};
use crate::wide::first_wide;
use c_code::Code;
use c_lower_layout::Index;
use c_lower_placement::{
    code_of_sources_keeps_types, emitted_code_is_steady, emitted_code_makes_the_marks,
};
use c_types_program::TypedProgram;
use source_limits::MOST_NODES;
use std::alloc::{AllocError, Global};

// The code of a program whose evaluation stack is small.
fn code(alloc: Global, program: &TypedProgram) -> Result<Code, AllocError>
    requires fit { IsFit program.now }
    requires few { first_wide_of 0 (functions_in program.now) ≡ None }
    requires texts { length program.now.texts < 2 ^ 32 }
    ensures { IfOk result (λ c. c ≡ lowered program.now) }
{
    let index = Index::new(alloc, program)?;
    let builtins = builtin_infos(alloc)?;
    let mut sources = Vec::with_capacity(alloc, program.functions().len())?;
    let mut instrs = Vec::new(alloc);
    emitted_code_is_steady();
    for function in program.functions() {
        sources.push(function_info(alloc, &index, function, &mut instrs)?)?;
    }
    Ok(Code::new(builtins, sources, instrs))
}

/// The code of a program whose source has so many nodes.
///
/// `Long` where the nodes are more than 131,072; else `Wide` with the number of the first function whose
/// evaluation stack is deeper than 64 values, also in what isn't evaluated in its block: operands of `sizeof`,
/// and lengths of arrays; else the code, or `Memory` where there is no memory for it.
pub fn lower(alloc: Global, program: &TypedProgram, nodes: usize) -> Result<Code, LowerError>
    requires fit { IsFit program.now }
    requires texts { length program.now.texts < 2 ^ 32 }
    ensures long { (result ≡ Err LowerError.Long) ↔ (most_nodes < nodes) }
    ensures wide { (f : ℕ) → (result ≡ Err (LowerError.Wide f)) ↔ ((nodes ≤ most_nodes) ×
        (first_wide_of 0 (functions_in program.now) ≡ Some f)) }
    ensures few { OnOk result ((nodes ≤ most_nodes) ×
        (first_wide_of 0 (functions_in program.now) ≡ None)) }
    ensures code { IfOk result (λ c. c ≡ lowered program.now) }
    ensures marks { IfOk result (λ c. (s : Source) → IsSourceOf program.now s → MakesTheMarks s c) }
    ensures keeps { IfOk result (λ c. (s : Source) → IsSourceOf program.now s → KeepsTypes (laid s c)) }
    ensures types { IfOk result (λ c. (s : Source) → IsSourceOf program.now s → TellsTypes s c) }
    ensures names { IfOk result (λ c. NamesNoMore program.now c) }
{
    if nodes > MOST_NODES {
        return Err(LowerError::Long);
    }
    emitted_code_makes_the_marks();
    code_of_sources_keeps_types();
    match first_wide(program) {
        Some(number) => Err(LowerError::Wide(number)),
        None => Ok(code(alloc, program)?),
    }
}
