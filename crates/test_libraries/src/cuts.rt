//! The names of all cuts of a source, from its bytes (`front_end`, `cut_advisor`).

use c_types_source::TypedSource;
use cut_advisor::cuts;
use front_end::{SourceError, SourceFault, SourceRule, typed_source};
use source_limits::MOST_BYTES;
use std::alloc::{AllocError, Global};

/// The names of all cuts of a typed source, each with a blank after it.
fn names_in(alloc: Global, source: &TypedSource) -> Result<Vec<u8>, AllocError> {
    let cuts = cuts(alloc, source)?;
    let mut names = Vec::new(alloc);
    for name in cuts.as_slice() {
        names.extend_from_slice(name.as_slice())?;
        names.push(b' ')?;
    }
    Ok(names)
}

/// The same of a source's bytes.
fn names_of(alloc: Global, source: &str) -> Result<Vec<u8>, SourceError> {
    if source.len() > MOST_BYTES {
        return Err(SourceError::Memory);
    }
    let typed = typed_source(alloc, source.as_bytes())?;
    Ok(names_in(alloc, &typed.source)?)
}

#[test]
fn cuts_are_named_in_the_order_of_the_source(rt: HostRuntime) -> Result<(), SourceError> {
    for (source, wanted) in [
        ("int main(void) { return 0; }", ""),
        (
            "[cut(net, disk)] int f(void); [cut(disk, time)] int g(void); int main(void) { return 0; }",
            "net disk time ",
        ),
        (
            "[cut(a)] int f(void), g(void); int v; int main(void) { return 0; } [cut(b)] int h(void);",
            "a b ",
        ),
    ] {
        let names = names_of(rt.alloc(), source)?;
        assert_eq!(rt; names.as_slice(), wanted.as_bytes(), "{source}");
    }
    Ok(())
}

#[test]
fn a_source_that_is_not_typed_has_no_cuts(rt: HostRuntime) {
    for (source, rule, at) in [
        ("int a; @", SourceRule::Byte, 7),
        ("[cut(a)] int f(void", SourceRule::Token, 19),
        ("[cut(a)] int f(void);", SourceRule::Type(18), 0),
        (
            "[cut(a)] int f(void); int main(void) { return x; }",
            SourceRule::Type(1),
            46,
        ),
    ] {
        let error = names_of(rt.alloc(), source).err();
        assert_eq!(rt;
            error,
            Some(SourceError::Fault(SourceFault { rule, at })),
            "{source}"
        );
    }
}
