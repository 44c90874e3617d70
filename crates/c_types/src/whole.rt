//! Whole sources.

ghost use Rattle.std.specs.Prelude.{◌≡◌, None, map};
ghost use Rattle.c_syntax.specs.Stands.{Holds};
ghost use Rattle.c_syntax.specs.Syntax.{Decls};
ghost use Rattle.c_syntax_laws.specs.Numbers.{FitsDecls};
ghost use Rattle.c_types_rules.specs.Limits.{outcome};
ghost use Rattle.c_types_rules.specs.Sources.{declarations as declarations_by_rules, has_main as has_main_by_rules};
ghost use Rattle.c_types_program.specs.Declarations.{function_in};
ghost use Rattle.c_types_nodes.specs.Tables.{Table};
ghost use Rattle.c_types_source.specs.Sources.{IsTypedSource};
ghost use Rattle.c_types.specs.Answers.{IsChecked, IsDeclared, IsFirstError, IsSource};
ghost use Rattle.c_types.specs.States.{Ends, IsSound, program_of};
ghost use Rattle.c_types.specs.Texts.{texts_among};

use crate::declarations::Declarations;
use crate::error::CheckError;
use crate::tags::tags_of;
use crate::texts::texts_of;
use c_lexer::Token;
use c_syntax::{Seq, Tree};
use c_types_operators::TypeError;
use c_types_program::{Function, TextLiteral};
use c_types_source::{Parts, TypedSource};
use std::alloc::Global;

// Whether one of the functions is main, and has a body.
fn has_main(functions: &[Function]) -> bool
    ensures { (t : Table) → result ≡ has_main_by_rules (map (function_in t) functions.now) }
{
    for function in functions {
        if function.name.as_slice() == b"main".as_slice() && function.body.is_some() {
            return true;
        }
    }
    false
}

// The first error of declarations that are a source in the end.
fn first_error(declared: &Declarations) -> Option<CheckError>
    requires { IsSound declared.now }
    ensures { IsFirstError declared.now result }
{
    if !has_main(&declared.functions) {
        return Some(CheckError::Rule(0, 18));
    }
    let which = declared.first_limit()?;
    Some(CheckError::Limit(which))
}

// The typed source of all its declarations, which have no error.
fn source_of(declared: Declarations, tree: Tree, texts: Seq<TextLiteral>) -> TypedSource
    requires sound { IsSound declared }
    requires declared { (ds : Decls) × FitsDecls ds × IsDeclared tree ds declared }
    requires right { IsFirstError declared None }
    ensures source { (ds : Decls) → IsDeclared tree ds declared →
        IsTypedSource ds (program_of declared) result }
    ensures tree { result.tree ≡ tree }
    ensures texts { result.texts ≡ texts }
{
    let Declarations {
        env,
        members_are_few: _,
        functions,
        globals,
    } = declared;
    TypedSource::new(Parts {
        tree,
        env,
        functions: Seq::from(functions),
        globals: Seq::from(globals),
        texts,
    })
}

// The typed source of all its declarations, or their first error.
fn finished(
    declared: Declarations,
    tree: Tree,
    texts: Seq<TextLiteral>,
) -> Result<TypedSource, CheckError>
    requires sound { IsSound declared }
    requires declared { (ds : Decls) × FitsDecls ds × IsDeclared tree ds declared }
    ensures { (ds : Decls) → IsDeclared tree ds declared → IsChecked texts tree ds (outcome ds) result }
{
    match first_error(&declared) {
        Some(error) => Err(error),
        None => Ok(source_of(declared, tree, texts)),
    }
}

// All declarations of a source, one after another.
fn all_declared(declared: Declarations, tree: &Tree) -> Result<Declarations, TypeError>
    requires source { IsSource tree.now }
    requires sound { IsSound declared }
    ensures { (ds : Decls) → Holds tree.now ds →
        Ends declared (declarations_by_rules declared.env.env.tags (program_of declared) ds) result }
{
    let mut declared = declared;
    let mut known = None;
    for id in tree.top() {
        declared.declaration(tree, *id, &mut known)?;
    }
    Ok(declared)
}

/// What a source declares, with its tree, its expressions and types in one table (C11 6.9), and its strings in order.
///
/// `Rule` names the first rule that is broken in it, with the offset of the node that breaks it. `Limit` where it keeps all rules and
/// exceeds a limit. `Memory` where there is no memory.
pub fn check(alloc: Global, tokens: &[Token], tree: Tree) -> Result<TypedSource, CheckError>
    // The tree is that of a source whose numbers are such as tokens are.
    requires { IsSource tree }
    // The answer is what the rules and the limits say of the source, with the strings among its tokens.
    ensures { (ds : Decls) → Holds tree ds → IsChecked (texts_among tokens.now) tree ds (outcome ds) result }
{
    let tags = tags_of(alloc, &tree, tree.top())?;
    let declared = Declarations::new(alloc, tags)?;
    let declared = all_declared(declared, &tree)?;
    let texts = texts_of(alloc, tokens)?;
    finished(declared, tree, texts)
}
