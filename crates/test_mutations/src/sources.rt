//! `check` on prefixes and changes of a source.

use r2_cli::Status;
use std::alloc::{AllocError, Global};
use test_runs::{Left, POOL, check_cut, check_of, prefix};

/// The status of a refusal has its line, and nothing is printed; else the word is, or what was found in the cut.
fn is_an_answer(left: &Left) -> bool {
    match left.status {
        Status::Done => left.out.as_slice() == b"accepted\n".as_slice() && left.err.is_empty(),
        Status::Findings => !left.out.is_empty() && left.err.is_empty(),
        Status::Source => left.out.is_empty() && left.err.as_slice().starts_with(b"r2: source "),
        _ => false,
    }
}

/// No rule is broken, or all that is wrong is that there is no `main`.
fn has_a_tree(left: &Left) -> bool {
    left.status == Status::Done
        || left.status == Status::Findings
        || left.err.as_slice().ends_with(b" rule 18\n")
}

/// How many prefixes of the pool, of the lengths from `from` to before `to`, have a tree; none where one has
/// no answer.
fn prefixes_with_a_tree(
    alloc: Global,
    from: usize,
    to: usize,
) -> Result<Option<usize>, AllocError> {
    let mut count: usize = 0;
    for length in from..to {
        let left = check_cut(alloc, prefix(POOL.as_bytes(), length), "sys")?;
        if !is_an_answer(&left) {
            return Ok(None);
        }
        if has_a_tree(&left) {
            count = count.saturating_add(1);
        }
    }
    Ok(Some(count))
}

// The prefixes that have a tree end between two declarations, and cut no comment and no line marker.

#[test]
fn prefixes_of_a_source_are_trees_or_refused_in_its_first_part(
    rt: HostRuntime,
) -> Result<(), AllocError> {
    assert_eq!(rt; prefixes_with_a_tree(rt.alloc(), 0, 924)?, Some(42));
    Ok(())
}

#[test]
fn prefixes_of_a_source_are_trees_or_refused_in_its_second_part(
    rt: HostRuntime,
) -> Result<(), AllocError> {
    assert_eq!(rt; prefixes_with_a_tree(rt.alloc(), 924, 1307)?, Some(3));
    Ok(())
}

#[test]
fn prefixes_of_a_source_are_trees_or_refused_in_its_third_part(
    rt: HostRuntime,
) -> Result<(), AllocError> {
    assert_eq!(rt; prefixes_with_a_tree(rt.alloc(), 1307, 1601)?, Some(3));
    Ok(())
}

#[test]
fn prefixes_of_a_source_are_trees_or_refused_in_its_last_part(
    rt: HostRuntime,
) -> Result<(), AllocError> {
    assert_eq!(rt; prefixes_with_a_tree(rt.alloc(), 1601, 1849)?, Some(2));
    Ok(())
}

#[test]
fn every_change_of_a_byte_is_answered(rt: HostRuntime) -> Result<(), AllocError> {
    let alloc = rt.alloc();
    let source = "int a=1;";
    for at in 0..source.len() {
        for byte in 0..=255 {
            let mut bytes = Vec::from_slice(alloc, source.as_bytes())?;
            assert!(rt; at < bytes.len());
            bytes[at] = byte;
            let left = check_of(alloc, &bytes)?;
            assert!(rt; is_an_answer(&left));
        }
    }
    Ok(())
}
