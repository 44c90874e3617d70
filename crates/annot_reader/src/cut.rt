//! The interface of a cut of a source whose types were checked.

ghost use Rattle.std.specs.Prelude.{IfOk};
ghost use Rattle.c_syntax.specs.Syntax.{Decls};
ghost use Rattle.c_types_rules.specs.Sources.{Program};
ghost use Rattle.c_types_source.specs.Sources.{GoesOn, IsTypedSource};
ghost use Rattle.annot_reader_rules.specs.Cuts.{annotations};
ghost use Rattle.annot_reader.specs.Interfaces.{IsInterface};
ghost use Rattle.annot_reader.specs.Sources.{interface_in};

use crate::error::InterfaceError;
use crate::functions::headings_of;
use crate::iface::Iface;
use crate::interface::interface;
use crate::source::Source;
use c_types_source::{Parts, TypedSource};
use std::alloc::Global;

/// The interface of a cut of a source, and the source itself, where all numbers stand for what they did.
///
/// `Rule` names the first rule of annotations that the source breaks, with the offset of the node that breaks it; `NoSuchCut` where it
/// breaks none and no declaration names the cut.
pub fn interface_of(
    alloc: Global,
    source: TypedSource,
    cut: &[u8],
) -> Result<(TypedSource, Iface), InterfaceError>
    ensures interface { (ds : Decls) (p : Program) → IsTypedSource ds p source →
        IsInterface cut.now (annotations ds p) (interface_in result) }
    ensures kept { IfOk result (λ found. GoesOn source found.0) }
{
    let Parts {
        tree,
        mut env,
        functions,
        globals,
        texts,
    } = source.into_parts();
    let headings = headings_of(alloc, &env, functions.as_slice())?;
    let read = Source {
        tree: &tree,
        functions: headings.as_slice(),
        cut,
    };
    let iface = interface(alloc, &mut env, &read)?;
    let source = TypedSource::new(Parts {
        tree,
        env,
        functions,
        globals,
        texts,
    });
    Ok((source, iface))
}
