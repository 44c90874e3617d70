//! A program to be timed: it reads system files, and prints of each how many turns and answers it has, or the line that is wrong.
//! Its first word is a number, at most 900, and the others name the files. It knows `read`, `poll` and as many functions as the number
//! says, `f100`, `f101` and so on, each of which writes one region.
#![tactic(auto)]

ghost use Rattle.std.specs.Prelude.{◌≤◌};

use std::alloc::{AllocError, Global};
use std::cmp::min;
use std::fs::File;
use std::io::Read;
use std::{env, io};
use sys_script_lines::{External, Externals, ScriptError, read_lines};

/// How many bytes a file may have.
const MOST_BYTES: usize = 1_048_576;

/// How many functions of the names `f100` to `f999` there are.
const MOST_NAMES: u16 = 900;

/// The functions that are known, `names` of them beside `read` and `poll`.
fn externals(alloc: Global, names: u16) -> Result<Externals, AllocError>
    requires { names ≤ 900 }
{
    let mut externals = Externals::new(alloc);
    let external = External {
        func: 16,
        below: 2_147_483_648,
        most: 2_147_483_647,
        pieces: 1,
    };
    externals.add(b"read", external)?;
    externals.add(b"poll", external)?;
    for number in 100..100 + names {
        let name = format!(in alloc; "f{number}")?;
        externals.add(name.as_bytes(), external)?;
    }
    Ok(externals)
}

/// What is printed of the bytes of a file.
fn line(alloc: Global, externals: &Externals, bytes: &[u8]) -> Result<String, AllocError> {
    if bytes.len() > MOST_BYTES {
        return String::from_str(alloc, "too long");
    }
    match read_lines(alloc, bytes, externals) {
        Ok(file) => {
            let turns = file.schedule.len();
            let answers = file.answers.len();
            format!(in alloc; "turns {turns} answers {answers}")
        }
        Err(ScriptError::Line(number)) => format!(in alloc; "line {number}"),
        Err(ScriptError::Memory) => Err(AllocError),
    }
}

fn main(rt: HostRuntime) -> io::Result<()> {
    let mut words = env::args(&rt)?.skip(1);
    let names = words.next().and_then(|word| word.parse().ok()).unwrap_or(0);
    let externals = externals(rt.alloc(), min(names, MOST_NAMES))?;
    for name in words {
        let mut bytes = Vec::with_capacity(rt.alloc(), MOST_BYTES + 1)?;
        let file = File::open(&rt, name.as_str())?;
        file.take(MOST_BYTES as u64 + 1).read_to_end(&mut bytes)?;
        let line = line(rt.alloc(), &externals, &bytes)?;
        println!(rt; "{line}")?;
    }
    Ok(())
}
