// A source that keeps what it gave, so that a refused line can be told.
ghost use Rattle.std.specs.Prelude.{◌≡◌, ◌<◌, ◌≤◌, IfOk, length};
ghost use Rattle.std.specs.Io.KnownBytes.{ReadConsumes};
ghost use Rattle.mont_base.specs.Faults.{HasCause};

use crate::explains::{Explains, Recalls};
use mont_base::{Failed, Source};
use std::alloc::Global;
use std::io;

// So many bytes are kept at most, as many as a job's text may have and more.
const KEPT_BYTES: usize = 33_554_432;

/// A source that gives what another gives, and keeps it, if that is at most 33,554,432 bytes and there
/// is memory for them.
#[derive(Drop)]
pub struct KeptSource<S: Source + Drop> {
    pub source: S,
    kept: Vec<u8>,
    // Whether all that it gave is kept.
    is_whole: bool,
}

impl<S: Source + Drop> KeptSource<S> {
    /// A source of what this one gives.
    pub fn new(alloc: Global, source: S) -> Self
        ensures { result.source ≡ source }
    {
        KeptSource {
            source,
            kept: Vec::new(alloc),
            is_whole: true,
        }
    }

    // Keeps a piece, if all before it is kept and there is room for it.
    fn keep(&mut self, piece: &[u8])
        ensures { self.new.source ≡ self.old.source }
    {
        let room = KEPT_BYTES.saturating_sub(self.kept.len());
        self.is_whole = self.is_whole
            && piece.len() <= room
            && self.kept.extend_from_slice(piece).is_ok();
    }
}

impl<S: Source + Drop> Source for KeptSource<S> {
    ghost left = { λ s. S.left s.source };

    ghost faults = { λ s. S.faults s.source };

    fn read(&mut self, buf: &mut [u8]) -> Result<usize, Failed>
        requires { 0 < length buf.old }
        ensures bound { IfOk result (λ n. n ≤ length buf.new) }
        ensures bytes { ReadConsumes (S.left self.old.source) (S.left self.new.source)
            result buf.new }
        ensures cause { HasCause (S.faults self.old.source) (S.faults self.new.source) result }
    {
        let count = self.source.read(buf)?;
        self.keep(&buf[..count]);
        Ok(count)
    }
}

impl<S: Source + Drop> Recalls for KeptSource<S> {
    fn recalled(&self) -> Option<&[u8]> {
        self.is_whole.then_some(self.kept.as_slice())
    }
}

impl<S: Source + Drop + Explains> Explains for KeptSource<S> {
    fn reason(&self) -> Option<io::Error> {
        self.source.reason()
    }
}
