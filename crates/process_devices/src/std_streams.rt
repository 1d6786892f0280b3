// The standard streams as a source and as sinks.
ghost use Rattle.std.specs.Prelude.{◌≡◌, ◌<◌, ◌≤◌, IfOk, None, length};
ghost use Rattle.std.specs.Io.KnownBytes.{ReadConsumes, WriteAppends};
ghost use Rattle.mont_base.specs.Faults.{HasCause, CountsFaults};

use crate::explains::Explains;
use crate::tried_again::{failure, read_some, write_some};
use mont_base::{Failed, Sink, Source};
use std::io;
use std::io::{ErrorKind, Read, Write};

/// A standard stream, or another reader, as a source.
#[derive(Drop)]
pub struct StdSource<R: Read + Drop> {
    pub reader: R,
    /// How often it failed.
    pub faults: u64,
    /// What the system said of the first failure.
    pub reason: Option<io::Error>,
}

impl<R: Read + Drop> StdSource<R> {
    /// A source of what this reader gives.
    pub fn new(reader: R) -> Self
        ensures { result ≡ record { reader = reader; faults = 0; reason = None } }
    {
        StdSource {
            reader,
            faults: 0,
            reason: None,
        }
    }
}

impl<R: Read + Drop> Source for StdSource<R> {
    ghost left = { λ s. R.remaining s.reader };

    ghost faults = { λ s. s.faults };

    fn read(&mut self, buf: &mut [u8]) -> Result<usize, Failed>
        ensures bound { IfOk result (λ n. n ≤ length buf.new) }
        ensures bytes { ReadConsumes (R.remaining self.old.reader) (R.remaining self.new.reader)
            result buf.new }
        ensures cause { HasCause self.old.faults self.new.faults result }
        ensures counted { CountsFaults self.old.faults self.new.faults result }
    {
        match read_some(&mut self.reader, buf) {
            Ok(count) => Ok(count),
            Err(e) => Err(failure(&mut self.faults, &mut self.reason, e)),
        }
    }
}

impl<R: Read + Drop> Explains for StdSource<R> {
    fn reason(&self) -> Option<io::Error> {
        self.reason
    }
}

/// A standard stream, or another writer, as a sink.
#[derive(Drop)]
pub struct StdSink<W: Write + Drop> {
    pub writer: W,
    /// How often it failed.
    pub faults: u64,
    /// What the system said of the first failure.
    pub reason: Option<io::Error>,
}

impl<W: Write + Drop> StdSink<W> {
    /// A sink that this writer takes.
    pub fn new(writer: W) -> Self
        ensures { result ≡ record { writer = writer; faults = 0; reason = None } }
    {
        StdSink {
            writer,
            faults: 0,
            reason: None,
        }
    }
}

impl<W: Write + Drop> Sink for StdSink<W> {
    ghost taken = { λ s. W.contents s.writer };

    ghost faults = { λ s. s.faults };

    fn write(&mut self, piece: &[u8]) -> Result<usize, Failed>
        ensures bound { IfOk result (λ n. (0 < n) × (n ≤ length piece.now)) }
        ensures bytes { WriteAppends (W.contents self.old.writer) (W.contents self.new.writer)
            result piece.now }
        ensures cause { HasCause self.old.faults self.new.faults result }
        ensures counted { CountsFaults self.old.faults self.new.faults result }
    {
        match write_some(&mut self.writer, piece) {
            Ok(0) => {
                let none = io::Error::from(ErrorKind::WriteZero);
                Err(failure(&mut self.faults, &mut self.reason, none))
            }
            Ok(count) => Ok(count),
            Err(e) => Err(failure(&mut self.faults, &mut self.reason, e)),
        }
    }
}

impl<W: Write + Drop> Explains for StdSink<W> {
    fn reason(&self) -> Option<io::Error> {
        self.reason
    }
}
