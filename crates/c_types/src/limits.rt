//! Limits that a source may exceed.

ghost use Rattle.std.specs.Prelude.{◌≡◌, List, length, map, not};
ghost use Rattle.std.specs.Option.{option_map};
ghost use Rattle.std.specs.List.{All};
ghost use Rattle.c_types_model.specs.Layouts.{capped, end_from};
ghost use Rattle.c_types_table.specs.Tables.{IsBelow};
ghost use Rattle.c_types_rules.specs.Limits.{all_keep, few_params as few_params_by_rules, first_limit as first_by_rules, globals_end as globals_end_by_rules, small_frame as small_frame_by_rules};
ghost use Rattle.c_types_rules.specs.Sources.{Program, extents_in};
ghost use Rattle.c_types_program.specs.Declarations.{IsFunction, IsGlobal, function_in, global_in, types_in};
ghost use Rattle.c_types.specs.Answers.{which_in};
ghost use Rattle.c_types.specs.States.{IsAligned, IsSound, program_of};

use crate::declarations::Declarations;
use crate::error::Which;
use crate::extents::end_after;
use crate::signature::param_count;
use c_types_environment::Environment;
use c_types_program::{Function, Global};
use c_types_table::TypeId;
use source_limits::{GREATEST_FRAME, GREATEST_OBJECT, MOST_FUNCTIONS, MOST_PARAMS};

// Whether no function has too many parameters.
fn few_params(env: &Environment, functions: &[Function]) -> bool
    requires { All (IsFunction env.now.table) functions.now }
    ensures { result ≡ all_keep few_params_by_rules (map (function_in env.now.table) functions.now) }
{
    for function in functions {
        if param_count(env, function.ty) > MOST_PARAMS {
            return false;
        }
    }
    true
}

// Where all globals end that lie in one row, in bytes. An end past 2^64 - 1 counts as 2^64 - 1.
fn globals_end(env: &Environment, globals: &[Global]) -> u64
    requires aligned { All IsAligned env.now.env.structs }
    requires globals { All (IsGlobal env.now.table) globals.now }
    ensures { (p : Program) → p.structs ≡ env.now.env.structs →
        p.globals ≡ map (global_in env.now.table) globals.now →
        result ≡ capped (globals_end_by_rules p) }
{
    let mut end: u64 = 0;
    for global in globals {
        end = end_after(env, end, global.ty);
    }
    end
}

// Where objects of these types end that lie in one row, in bytes. An end past 2^64 - 1 counts as 2^64 - 1.
fn locals_end(env: &Environment, locals: &[TypeId]) -> u64
    requires aligned { All IsAligned env.now.env.structs }
    requires locals { All (IsBelow (length env.now.table.types)) locals.now }
    ensures { (p : Program) → p.structs ≡ env.now.env.structs →
        result ≡ capped (end_from 0 (extents_in p (types_in env.now.table.types locals.now))) }
{
    let mut end: u64 = 0;
    for local in locals {
        end = end_after(env, end, *local);
    }
    end
}

// Whether the parameters and locals of a function aren't too large.
fn small_frame(env: &Environment, function: &Function) -> bool
    requires aligned { All IsAligned env.now.env.structs }
    requires function { IsFunction env.now.table function.now }
    ensures { (p : Program) → p.structs ≡ env.now.env.structs →
        result ≡ small_frame_by_rules p (function_in env.now.table function.now) }
{
    match &function.body {
        Some(body) => locals_end(env, body.locals.as_slice()) <= GREATEST_FRAME,
        None => true,
    }
}

// The same of all functions.
fn small_frames(env: &Environment, functions: &[Function]) -> bool
    requires aligned { All IsAligned env.now.env.structs }
    requires functions { All (IsFunction env.now.table) functions.now }
    ensures { (p : Program) → p.structs ≡ env.now.env.structs →
        result ≡ all_keep (small_frame_by_rules p) (map (function_in env.now.table) functions.now) }
{
    for function in functions {
        if !small_frame(env, function) {
            return false;
        }
    }
    true
}

impl Declarations {
    /// The first limit that is exceeded; `None` where none is.
    pub(crate) fn first_limit(&self) -> Option<Which>
        requires sound { IsSound self.now }
        ensures { option_map which_in result ≡
            first_by_rules (not self.now.env.found_large) (program_of self.now) }
    {
        if self.functions.len() > MOST_FUNCTIONS {
            Some(Which::Functions)
        } else if !few_params(&self.env, &self.functions) {
            Some(Which::Params)
        } else if !self.members_are_few {
            Some(Which::Members)
        } else if self.env.found_large() {
            Some(Which::Object)
        } else if globals_end(&self.env, &self.globals) > GREATEST_OBJECT {
            Some(Which::Globals)
        } else if !small_frames(&self.env, &self.functions) {
            Some(Which::Frame)
        } else {
            None
        }
    }
}
