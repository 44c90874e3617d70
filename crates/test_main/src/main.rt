//! Runs the cases of the files that its words name, each by the library that judges its kind. Prints what
//! differs from what a case wants, and for each file how many cases pass.
#![tactic(auto)]

mod file;
mod kind;

use file::run_file;
use std::env;

fn main(rt: HostRuntime) -> anyhow::Result<()> {
    for name in env::args(&rt)?.skip(1) {
        run_file(&rt, name.as_str())?;
    }
    Ok(())
}
