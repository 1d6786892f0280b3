// A file as a source.
ghost use Rattle.std.specs.Prelude.{◌≡◌, ◌≤◌, IfOk, length, option_and_then};
ghost use Rattle.std.specs.Io.KnownBytes.{ReadConsumes};
ghost use Rattle.mont_base.specs.Faults.{HasCause, CountsFaults};

use crate::explains::Explains;
use crate::tried_again::{failure, read_some};
use mont_base::{Failed, Source};
use std::io::{ErrorKind, Read};
use std::rt::Files;
use std::{fs, io};

/// A file as a source. Where it can't be opened, each call fails.
#[derive(Drop)]
pub struct FileSource<F: Read + Drop> {
    file: Option<F>,
    /// How often it failed.
    pub faults: u64,
    /// Why the file can't be opened, or what the system said of the first failure.
    pub reason: Option<io::Error>,
}

impl<F: Read + Drop> FileSource<F> {
    /// A source of no file, each of whose calls fails.
    pub fn closed() -> Self
        ensures { result.faults ≡ 0 }
    {
        FileSource {
            file: None,
            faults: 0,
            reason: None,
        }
    }

    /// A source of what the file of this name holds.
    pub fn open<R: Files<File = F>>(rt: &R, path: &str) -> Self
        ensures { result.faults ≡ 0 }
    {
        let (file, reason) = match fs::open(rt, path) {
            Ok(file) => (Some(file), None),
            Err(e) => (None, Some(e)),
        };
        FileSource {
            file,
            faults: 0,
            reason,
        }
    }
}

impl<F: Read + Drop> Source for FileSource<F> {
    ghost left = { λ s. option_and_then F.remaining s.file };

    ghost faults = { λ s. s.faults };

    fn read(&mut self, buf: &mut [u8]) -> Result<usize, Failed>
        ensures bound { IfOk result (λ n. n ≤ length buf.new) }
        ensures bytes { ReadConsumes (option_and_then F.remaining self.old.file)
            (option_and_then F.remaining self.new.file) result buf.new }
        ensures cause { HasCause self.old.faults self.new.faults result }
        ensures counted { CountsFaults self.old.faults self.new.faults result }
    {
        let Some(file) = &mut self.file else {
            let none = io::Error::from(ErrorKind::NotFound);
            return Err(failure(&mut self.faults, &mut self.reason, none));
        };
        match read_some(file, buf) {
            Ok(count) => Ok(count),
            Err(e) => Err(failure(&mut self.faults, &mut self.reason, e)),
        }
    }
}

impl<F: Read + Drop> Explains for FileSource<F> {
    fn reason(&self) -> Option<io::Error> {
        self.reason
    }
}
