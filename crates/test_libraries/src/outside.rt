//! Files and a sink that never fail (`r2_base`).

use r2_base::{Fault, Files, Sink, SureFiles, SureSink};

#[test]
fn sure_files_hold_what_was_added(rt: HostRuntime) -> Result<(), Fault> {
    let alloc = rt.alloc();
    let mut files = SureFiles::new(alloc);
    files.hold(alloc, "a", b"xyz")?;
    files.fresh("b")?;
    files.append("b", b"12")?;
    let mut piece = [0; 2];
    let count = files.read_at("a", 1, &mut piece)?;
    assert!(rt; count == 2 && piece == *b"yz" && files.file("b") == Some(b"12".as_slice()));
    Ok(())
}

#[test]
fn a_sure_sink_has_what_was_put(rt: HostRuntime) -> Result<(), Fault> {
    let mut sink = SureSink::new(rt.alloc());
    sink.put(b"ab")?;
    sink.put(b"c")?;
    assert_eq!(rt; sink.bytes(), b"abc".as_slice());
    Ok(())
}
