//! All names of cuts.

ghost use Rattle.std.specs.Prelude.{◌≡◌, ◌<◌, length, true, IfOk, OnOk};
ghost use Rattle.c_syntax.specs.Nodes.{decl_at};
ghost use Rattle.c_syntax.specs.Stands.{StandsDecl};
ghost use Rattle.c_syntax.specs.Syntax.{Decl as Declared, Decls};
ghost use Rattle.c_types_rules.specs.Expressions.{declared_name};
ghost use Rattle.c_types_rules.specs.Sources.{Program};
ghost use Rattle.c_types_source.specs.Sources.{IsTypedSource};
ghost use Rattle.annot_reader_rules.specs.Cuts.{annotations};
ghost use Rattle.annot_reader_words.specs.Shown.{IsDecl, Shows};
ghost use Rattle.cut_advisor.specs.CutNames.{AreCuts, with_names};
ghost use Rattle.cut_advisor.specs.CutNodes.{IsPut, declares_next as declares_next_of, has_members, is_next as is_next_of, names_at, texts_of};
ghost use Rattle.cut_advisor.specs.CutPuts.{Puts};

use crate::put::put_annots;
use annot_reader_functions::function_named;
use annot_reader_words::decl_node;
use c_builtins::FIRST_SOURCE_FUNCTION;
use c_lexer::Text;
use c_syntax::{Decl, DeclId, Rest, Seq, Tree};
use c_types_source::TypedSource;
use indexmap::IndexSet;
use std::alloc::{AllocError, Global};

// The name that a declaration declares, which is empty where it has none.
fn name_of(decl: &Decl) -> &[u8]
    ensures { result.now ≡ declared_name decl.now.name }
{
    match &decl.name {
        Some(name) => name.as_slice(),
        None => b"",
    }
}

// Whether a declaration defines a struct.
fn defines_struct(decl: &Decl) -> bool
    ensures { result ≡ has_members decl.now.rest }
{
    matches!(decl.rest, Rest::Members(_))
}

// Whether the function of this number, if any, is declared for the first time where so many were declared before.
fn is_next(source: &TypedSource, number: Option<u32>, count: usize) -> bool
    ensures next { (ds : Decls) (p : Program) → IsTypedSource ds p source.now →
        result ≡ is_next_of p count number }
    ensures few { result ≡ true → count < length source.now.functions }
{
    let Some(number) = number else {
        return false;
    };
    let place = number.saturating_sub(u32::from(FIRST_SOURCE_FUNCTION)) as usize;
    count <= place && place < source.functions().len()
}

// Whether a declaration is the first of a function, where so many were declared before.
fn declares_next(source: &TypedSource, decl: &Decl, count: usize) -> bool
    ensures next { (ds : Decls) (p : Program) (d : Declared) → IsTypedSource ds p source.now →
        Shows source.now.tree decl.now d → result ≡ declares_next_of p count d }
    ensures few { result ≡ true → count < length source.now.functions }
{
    if defines_struct(decl) {
        return false;
    }
    let number = function_named(source.env(), name_of(decl));
    is_next(source, number, count)
}

// Puts the cuts that a declaration names. It isn't looked at where it shares its annotations with the one that was put last.
fn put_named(
    alloc: Global,
    tree: &Tree,
    id: DeclId,
    names: &mut IndexSet<Vec<u8>>,
    last: &mut Option<DeclId>,
) -> Result<(), AllocError>
    requires id { IsDecl tree.now id }
    requires last { IsPut tree.now last.old (texts_of names.old.keys) }
    ensures put { OnOk result (texts_of names.new.keys ≡
        with_names (texts_of names.old.keys) (names_at (decl_at tree.now id))) }
    ensures last { OnOk result (IsPut tree.now last.new (texts_of names.new.keys)) }
{
    if let Some(before) = *last {
        if tree.share_specifiers(before, id) {
            return Ok(());
        }
    }
    put_annots(alloc, names, tree.decl(id).annots.as_slice())?;
    *last = Some(id);
    Ok(())
}

// The same where it is the first of a function, which is counted.
fn put_declared(
    alloc: Global,
    source: &TypedSource,
    id: DeclId,
    names: &mut IndexSet<Vec<u8>>,
    last: &mut Option<DeclId>,
    count: &mut usize,
) -> Result<(), AllocError>
    requires id { IsDecl source.now.tree id }
    requires last { IsPut source.now.tree last.old (texts_of names.old.keys) }
    ensures put { OnOk result ((ds : Decls) (p : Program) (d : Declared) → IsTypedSource ds p source.now →
        StandsDecl source.now.tree id d → Puts p d count.old (texts_of names.old.keys) count.new
        (texts_of names.new.keys)) }
    ensures last { OnOk result (IsPut source.now.tree last.new (texts_of names.new.keys)) }
{
    if !declares_next(source, decl_node(source.tree(), id), *count) {
        return Ok(());
    }
    *count += 1;
    put_named(alloc, source.tree(), id, names, last)?;
    Ok(())
}

// The names in their order.
fn texts(alloc: Global, names: &IndexSet<Vec<u8>>) -> Result<Seq<Text>, AllocError>
    ensures { IfOk result (λ s. s ≡ texts_of names.now.keys) }
{
    let mut texts = Vec::with_capacity(alloc, names.len())?;
    for index in 0..names.len() {
        texts.push(Text::from_slice(alloc, names[index].as_slice())?)?;
    }
    Ok(Seq::from(texts))
}

/// The cuts that a source names, each once, in the order in which they are first named.
///
/// Where the source breaks a rule of annotations they are some names. `AllocError` where there is no memory for them. No command
/// asks for them yet: whoever tries each cut of a source is to.
pub fn cuts(alloc: Global, source: &TypedSource) -> Result<Seq<Text>, AllocError>
    ensures { (ds : Decls) (p : Program) → IsTypedSource ds p source.now →
        IfOk result (AreCuts (annotations ds p)) }
{
    let mut names = IndexSet::new(alloc);
    let mut last = None;
    let mut count = 0;
    for id in source.tree().top() {
        put_declared(alloc, source, *id, &mut names, &mut last, &mut count)?;
    }
    let found = texts(alloc, &names)?;
    Ok(found)
}
