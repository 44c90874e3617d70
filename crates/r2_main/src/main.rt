//! The program: the host's files and streams, and the call of `run`.
#![tactic(auto)]

mod host;

use host::{HostFiles, HostSink};
use r2_base::Sink;
use r2_cli::{Status, run};
use std::alloc::{AllocError, Global};
use std::process::ExitCode;
use std::{env, io};

/// The words of the command line without the program's name. Words of which one isn't UTF-8 have no form of a command,
/// as no words have none.
fn command_line(rt: &HostRuntime) -> Result<Vec<String>, AllocError> {
    let mut words = Vec::new(rt.alloc());
    match env::args(rt) {
        Ok(args) => {
            for word in args.skip(1) {
                words.push(word)?;
            }
            Ok(words)
        }
        Err(error) if error.kind() == io::ErrorKind::OutOfMemory => Err(AllocError),
        Err(_) => Ok(words),
    }
}

fn main(rt: HostRuntime) -> ExitCode {
    let mut out = HostSink::new(rt.stdout());
    let mut err = HostSink::new(rt.stderr());
    let status = match command_line(&rt) {
        Ok(words) => run(
            rt.alloc(),
            &words,
            &mut HostFiles::new(rt.alloc(), &rt),
            &mut out,
            &mut err,
        ),
        Err(_) => match err.put(b"r2: no memory\n") {
            Ok(()) => Status::NoMemory,
            Err(_) => Status::WriteFault,
        },
    };
    ExitCode::from(status.code())
}
