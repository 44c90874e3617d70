//! The host's files and streams.

ghost use Rattle.std.specs.Prelude.{◌≡◌, ◌≤◌, length, false, None, IfOk};
ghost use Rattle.r2_base.specs.Seen.{Store, Stream};

use r2_base::{Fault, Files, Sink};
use std::alloc::Global;
use std::fs::OpenOptions;
use std::io;
use std::io::{Read, Seek, SeekFrom, Write};

/// A file that stays open while pieces of it follow one another: one that takes its name meanwhile isn't mixed with it.
#[derive(Drop)]
struct Open<T: Drop> {
    name: String,
    file: T,
}

/// The files of the host, which tell nothing of what they hold.
#[derive(Drop)]
pub struct HostFiles<'a, R: std::rt::Files> {
    rt: &'a R,
    alloc: Global,
    reading: Option<Open<R::File>>,
    writing: Option<Open<R::File>>,
    read_faults: u64,
    write_faults: u64,
}

fn read_from<T: Read + Seek>(file: &mut T, from: u64, into: &mut [u8]) -> io::Result<usize>
    ensures { IfOk result (λ n. n ≤ length into.new) }
{
    file.seek(SeekFrom::Start(from))?;
    file.read(into)
}

impl<'a, R: std::rt::Files> HostFiles<'a, R> {
    pub fn new(alloc: Global, rt: &'a R) -> Self {
        HostFiles {
            rt,
            alloc,
            reading: None,
            writing: None,
            read_faults: 0,
            write_faults: 0,
        }
    }

    /// Reads a piece of the file, which is opened anew for its first bytes.
    fn read_piece(&mut self, name: &str, from: u64, into: &mut [u8]) -> io::Result<usize>
        ensures room { IfOk result (λ n. n ≤ length into.new) }
        ensures reads { self.new.read_faults ≡ self.old.read_faults }
        ensures writes { self.new.write_faults ≡ self.old.write_faults }
    {
        if from > 0 {
            if let Some(open) = &mut self.reading {
                if open.name.as_str() == name {
                    return read_from(&mut open.file, from, into);
                }
            }
        }
        let kept = String::from_str(self.alloc, name)?;
        let mut file = std::fs::open(self.rt, name)?;
        let count = read_from(&mut file, from, into)?;
        self.reading = Some(Open { name: kept, file });
        Ok(count)
    }

    /// Makes the file hold nothing.
    fn empty(&mut self, name: &str) -> io::Result<()>
        ensures reads { self.new.read_faults ≡ self.old.read_faults }
        ensures writes { self.new.write_faults ≡ self.old.write_faults }
    {
        let kept = String::from_str(self.alloc, name)?;
        let file = std::fs::create(self.rt, name)?;
        self.writing = Some(Open { name: kept, file });
        Ok(())
    }

    /// Adds a piece to the file.
    fn append_piece(&mut self, name: &str, piece: &[u8]) -> io::Result<()>
        ensures reads { self.new.read_faults ≡ self.old.read_faults }
        ensures writes { self.new.write_faults ≡ self.old.write_faults }
    {
        if let Some(open) = &mut self.writing {
            if open.name.as_str() == name {
                return open.file.write_all(piece);
            }
        }
        let kept = String::from_str(self.alloc, name)?;
        let mut options = OpenOptions::new();
        options.append(true).create(true);
        let mut file = options.open(self.rt, name)?;
        file.write_all(piece)?;
        self.writing = Some(Open { name: kept, file });
        Ok(())
    }
}

impl<R: std::rt::Files> Files for HostFiles<'_, R> {
    ghost seen = { λ f. record {
      tells = false;
      holds = λ n. None;
      read_faults = f.read_faults;
      write_faults = f.write_faults;
    } };

    fn read_at(&mut self, name: &str, from: u64, into: &mut [u8]) -> Result<usize, Fault> {
        match self.read_piece(name, from, into) {
            Ok(count) => Ok(count),
            Err(error) => {
                if error.kind() == io::ErrorKind::NotFound {
                    return Err(Fault::Missing);
                }
                self.read_faults = self.read_faults.saturating_add(1);
                Err(Fault::Failed)
            }
        }
    }

    fn fresh(&mut self, name: &str) -> Result<(), Fault> {
        if self.empty(name).is_err() {
            self.write_faults = self.write_faults.saturating_add(1);
            return Err(Fault::Failed);
        }
        Ok(())
    }

    fn append(&mut self, name: &str, piece: &[u8]) -> Result<(), Fault> {
        if self.append_piece(name, piece).is_err() {
            self.write_faults = self.write_faults.saturating_add(1);
            return Err(Fault::Failed);
        }
        Ok(())
    }
}

/// A stream of the host, which tells nothing of what it was given.
#[derive(Drop)]
pub struct HostSink<W: Write + Drop> {
    to: W,
    faults: u64,
}

impl<W: Write + Drop> HostSink<W> {
    pub fn new(to: W) -> Self {
        HostSink { to, faults: 0 }
    }

    fn write(&mut self, piece: &[u8]) -> io::Result<()>
        ensures { self.new.faults ≡ self.old.faults }
    {
        self.to.write_all(piece)?;
        self.to.flush()
    }
}

impl<W: Write + Drop> Sink for HostSink<W> {
    ghost seen = { λ s. record { given = None; faults = s.faults } };

    fn put(&mut self, piece: &[u8]) -> Result<(), Fault> {
        if self.write(piece).is_err() {
            self.faults = self.faults.saturating_add(1);
            return Err(Fault::Failed);
        }
        Ok(())
    }
}
