//! A command that writes two files and both streams (`r2_cli_examples`).

use r2_base::{MemFiles, MemSink, SureFiles, SureSink};
use r2_cli_examples::exchange;
use std::alloc::{AllocError, Global};

/// Calls that fail, and what is left: of the files `log` and `rep`, and of the two streams.
type Case<'a> = (
    &'a [u64],
    &'a [u64],
    &'a [u64],
    u8,
    Option<&'a str>,
    Option<&'a str>,
    &'a str,
    &'a str,
);

fn numbers(alloc: Global, items: &[u64]) -> Result<Vec<u64>, AllocError> {
    Vec::from_slice(alloc, items)
}

/// Whether the command leaves this, where `src` holds `abcd` and `sys` holds `xy`.
fn is_left(alloc: Global, case: &Case<'_>) -> Result<bool, AllocError> {
    let mut files = MemFiles::new(alloc, 100, numbers(alloc, case.0)?);
    files.hold(alloc, "src", b"abcd")?;
    files.hold(alloc, "sys", b"xy")?;
    files.hold(alloc, "rep", b"old")?;
    let mut out = MemSink::new(alloc, numbers(alloc, case.1)?);
    let mut err = MemSink::new(alloc, numbers(alloc, case.2)?);
    let status = exchange(
        alloc, "src", "sys", "log", "rep", &mut files, &mut out, &mut err,
    );
    Ok(
        status.code() == case.3
            && files.file("log") == case.4.map(|text| text.as_bytes())
            && files.file("rep") == case.5.map(|text| text.as_bytes())
            && out.bytes() == case.6.as_bytes()
            && err.bytes() == case.7.as_bytes(),
    )
}

// Calls 0 and 1 read the first file, 2 and 3 the second; 4 and 6 empty a file, and 5 and 7 fill it.
const CASES: [Case<'static>; 15] = [
    (
        &[],
        &[],
        &[],
        8,
        Some("xy"),
        Some("abcd"),
        "xy",
        "abcdr2: short\n",
    ),
    (
        &[0],
        &[],
        &[],
        11,
        None,
        Some("old"),
        "",
        "r2: read fault\n",
    ),
    (
        &[1],
        &[],
        &[],
        11,
        None,
        Some("old"),
        "",
        "r2: read fault\n",
    ),
    (
        &[2],
        &[],
        &[],
        11,
        None,
        Some("old"),
        "",
        "r2: read fault\n",
    ),
    (
        &[3],
        &[],
        &[],
        11,
        None,
        Some("old"),
        "",
        "r2: read fault\n",
    ),
    (
        &[4],
        &[],
        &[],
        12,
        None,
        Some("old"),
        "",
        "r2: write fault\n",
    ),
    (
        &[5],
        &[],
        &[],
        12,
        Some("x"),
        Some("old"),
        "",
        "r2: write fault\n",
    ),
    (
        &[6],
        &[],
        &[],
        12,
        Some("xy"),
        Some("old"),
        "",
        "r2: write fault\n",
    ),
    (
        &[7],
        &[],
        &[],
        12,
        Some("xy"),
        Some("ab"),
        "",
        "r2: write fault\n",
    ),
    (
        &[],
        &[0],
        &[],
        12,
        Some("xy"),
        Some("abcd"),
        "x",
        "r2: write fault\n",
    ),
    (
        &[],
        &[],
        &[0],
        12,
        Some("xy"),
        Some("abcd"),
        "xy",
        "abr2: write fault\n",
    ),
    (
        &[],
        &[],
        &[1],
        12,
        Some("xy"),
        Some("abcd"),
        "xy",
        "abcdr2: s",
    ),
    (
        &[],
        &[],
        &[0, 1],
        12,
        Some("xy"),
        Some("abcd"),
        "xy",
        "abr2: writ",
    ),
    (&[0], &[], &[0], 12, None, Some("old"), "", "r2: rea"),
    (&[4], &[], &[0], 12, None, Some("old"), "", "r2: writ"),
];

#[test]
fn each_call_that_fails_stops_the_command_there(rt: HostRuntime) -> Result<(), AllocError> {
    let alloc = rt.alloc();
    for (number, case) in CASES.iter().enumerate() {
        assert!(rt; is_left(alloc, case)?, "case {number}");
    }
    Ok(())
}

/// Whether the command writes nothing but this line, where `sys` holds this, if it is there.
fn is_refused(alloc: Global, held: Option<&str>, line: &str) -> Result<bool, AllocError> {
    let mut files = SureFiles::new(alloc);
    files.hold(alloc, "src", b"abcd")?;
    if let Some(held) = held {
        files.hold(alloc, "sys", held.as_bytes())?;
    }
    let mut out = SureSink::new(alloc);
    let mut err = SureSink::new(alloc);
    let status = exchange(
        alloc, "src", "sys", "log", "rep", &mut files, &mut out, &mut err,
    );
    Ok(
        status.code() > 0
            && files.file("log").is_none()
            && out.bytes().is_empty()
            && err.bytes() == line.as_bytes(),
    )
}

#[test]
fn a_file_that_is_missing_or_too_long_is_refused_before_anything_is_written(
    rt: HostRuntime,
) -> Result<(), AllocError> {
    for (held, line) in [
        (None, "r2: no file sys\n"),
        (Some("seventeen letters"), "r2: limit system 16\n"),
    ] {
        assert!(rt; is_refused(rt.alloc(), held, line)?, "{line}");
    }
    Ok(())
}
