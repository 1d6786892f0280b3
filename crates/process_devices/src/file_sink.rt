// A file as a sink. Its bytes go to a new file beside it, which is moved to its place when all were
// written: so a program that is ended before leaves the file that stood there, or none.
ghost use Rattle.std.specs.Prelude.{◌≡◌, ◌<◌, ◌≤◌, ℕ, [], None, Err, IfOk, OnOk, length};
ghost use Rattle.std.specs.Io.KnownBytes.{WriteAppends};
ghost use Rattle.mont_base.specs.Faults.{HasCause, CountsFaults};

use crate::beside::Beside;
use crate::explains::Explains;
use crate::place::{Place, place_of};
use crate::tried_again::failure;
use mont_base::{Failed, Sink};
use std::alloc::{AllocError, Global};
use std::fs::OpenOptions;
use std::io::{ErrorKind, Write};
use std::rt::Files;
use std::{fs, io, mem};

// So many bytes are gathered, and written at once.
const GATHERED_BYTES: usize = 65_536;

const _: () = prove!(GATHERED_BYTES == 65_536);

/// A file as a sink. It stands in its place after `finish`. What is no regular file, as a pipe, is
/// written in its place. A file that can't be made is a sink each of whose calls fails.
#[derive(Drop)]
pub struct FileSink<'a, R: Files> {
    rt: &'a R,
    target: Target<R::File>,
    // What is to be written next.
    gathered: Vec<u8>,
    /// How often it failed.
    pub faults: u64,
    /// Why the file can't be made, or what the system said of the first failure.
    pub reason: Option<io::Error>,
}

// Where the bytes go.
#[derive(Drop)]
enum Target<F: Drop> {
    // To the file beside.
    Beside(Beside<F>),
    // To what stands in the place and isn't opened yet.
    Unopened { path: String, how: OpenOptions },
    // To what stands in the place.
    InPlace { file: F },
    // Nowhere: it can't be made, or it was given up or finished.
    Lost,
}

impl<'a, R: Files> FileSink<'a, R> {
    /// A sink of no file, each of whose calls fails.
    pub fn closed(rt: &'a R, alloc: Global) -> Self
        ensures { result.faults ≡ 0 }
    {
        FileSink {
            rt,
            target: Target::Lost,
            gathered: Vec::new(alloc),
            faults: 0,
            reason: None,
        }
    }

    /// A sink of the file of this name. The file beside it is made at once, and where it can't be
    /// `reason` says why. What is no regular file is opened at the first write.
    pub fn new(rt: &'a R, alloc: Global, path: &str) -> Result<Self, AllocError>
        ensures { IfOk result (λ s. s.faults ≡ 0) }
    {
        let gathered = Vec::with_capacity(alloc, GATHERED_BYTES)?;
        let (target, reason) = match target_of(rt, alloc, path) {
            Ok(target) => (target, None),
            Err(e) if e.kind() == ErrorKind::OutOfMemory => return Err(AllocError),
            Err(e) => (Target::Lost, Some(e)),
        };
        Ok(FileSink {
            rt,
            target,
            gathered,
            faults: 0,
            reason,
        })
    }

    /// Writes what is left, and moves the file to its place. Where that fails, it is removed.
    pub fn finish(&mut self) -> Result<(), Failed>
        ensures { HasCause self.old.faults self.new.faults result }
    {
        self.flush()?;
        match mem::replace(&mut self.target, Target::Lost) {
            Target::Unopened { .. } | Target::InPlace { file: _ } => Ok(()),
            Target::Beside(beside) => match beside.settle(self.rt) {
                Ok(()) => Ok(()),
                Err(e) => Err(self.failed(e)),
            },
            Target::Lost => Err(self.failed(io::Error::from(ErrorKind::NotFound))),
        }
    }

    /// Removes what was written beside the place.
    pub fn abandon(&mut self)
        ensures { self.new.faults ≡ self.old.faults }
    {
        if let Target::Beside(beside) = mem::replace(&mut self.target, Target::Lost) {
            beside.remove(self.rt);
        }
    }

    // Writes what is gathered. Where that fails the file is given up.
    fn flush(&mut self) -> Result<(), Failed>
        ensures cause { HasCause self.old.faults self.new.faults result }
        ensures counted { CountsFaults self.old.faults self.new.faults result }
        ensures written { OnOk result (self.new.gathered.items ≡ []) }
    {
        match self.write_gathered() {
            Ok(()) => {
                self.gathered.clear();
                Ok(())
            }
            Err(e) => {
                self.abandon();
                Err(self.failed(e))
            }
        }
    }

    fn write_gathered(&mut self) -> io::Result<()>
        ensures { self.new.faults ≡ self.old.faults }
    {
        if self.gathered.is_empty() {
            return Ok(());
        }
        if let Target::Unopened { path, how } = &self.target {
            let file = how.open(self.rt, path.as_str())?;
            self.target = Target::InPlace { file };
        }
        match &mut self.target {
            Target::Beside(beside) => beside.write(&self.gathered),
            Target::InPlace { file } => file.write_all(&self.gathered),
            Target::Unopened { .. } | Target::Lost => Err(io::Error::from(ErrorKind::NotFound)),
        }
    }

    // Makes room for a byte, by writing what is gathered where there is none.
    fn make_room(&mut self) -> Result<(), Failed>
        ensures cause { HasCause self.old.faults self.new.faults result }
        ensures counted { CountsFaults self.old.faults self.new.faults result }
        ensures room { OnOk result (length self.new.gathered.items < GATHERED_BYTES) }
    {
        if self.gathered.len() < GATHERED_BYTES {
            return Ok(());
        }
        self.flush()
    }

    // A failure, for what the system said.
    fn failed(&mut self, said: io::Error) -> Failed
        ensures cause { HasCause {T = ℕ} self.old.faults self.new.faults (Err result) }
        ensures counted { CountsFaults {T = ℕ} self.old.faults self.new.faults (Err result) }
    {
        failure(&mut self.faults, &mut self.reason, said)
    }
}

// Where the bytes for the file of a name go.
fn target_of<R: Files>(rt: &R, alloc: Global, path: &str) -> io::Result<Target<R::File>> {
    match place_of(rt, alloc, path)? {
        Place::File { path, found } => Ok(Target::Beside(Beside::make(rt, alloc, path, found)?)),
        Place::Device { path, how } => Ok(Target::Unopened { path, how }),
    }
}

impl<R: Files> Sink for FileSink<'_, R> {
    ghost taken = { λ _. None };

    ghost faults = { λ s. s.faults };

    fn write(&mut self, piece: &[u8]) -> Result<usize, Failed>
        requires { 0 < length piece.now }
        ensures bound { IfOk result (λ n. (0 < n) × (n ≤ length piece.now)) }
        ensures bytes { WriteAppends None None result piece.now }
        ensures cause { HasCause self.old.faults self.new.faults result }
        ensures counted { CountsFaults self.old.faults self.new.faults result }
    {
        if let Target::Lost = self.target {
            return Err(self.failed(io::Error::from(ErrorKind::NotFound)));
        }
        self.make_room()?;
        let count = piece.len().min(GATHERED_BYTES - self.gathered.len());
        match self.gathered.extend_from_slice(&piece[..count]) {
            Ok(()) => Ok(count),
            Err(_) => Err(self.failed(io::Error::from(ErrorKind::OutOfMemory))),
        }
    }
}

impl<R: Files> Explains for FileSink<'_, R> {
    fn reason(&self) -> Option<io::Error> {
        self.reason
    }
}
