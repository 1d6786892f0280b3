// Where bytes are read from.
ghost use Rattle.std.specs.Prelude.{◌≡◌, ◌<◌, ◌≤◌, ◌++◌, ℕ, List, length, take, drop, false, Option, Some, IfOk, MatchResult};
ghost use Rattle.std.specs.Io.KnownBytes.{ReadConsumes};
ghost use Rattle.std.specs.Result.{OkIff};
ghost use Rattle.mont_base.specs.Devices.{calls_from_start, behind_next, fails_next, gives_next};
ghost use Rattle.mont_base.specs.Faults.{HasCause, CountsFaults};

use std::marker::Model;

/// A device failed.
#[derive(Clone, Copy, Debug, PartialEq, Eq)]
pub struct Failed;

/// Bytes to read.
pub trait Source {
    /// The bytes still to come, where the source tells them.
    ghost left: { Self → Option (List ℕ) };

    /// How often it failed. It never falls, and stands still at the last value of a `u64`.
    ghost faults: { Self → ℕ };

    /// Reads the next bytes into the front of the buffer and says how many. It gives none only at
    /// the end.
    fn read(&mut self, buf: &mut [u8]) -> Result<usize, Failed>
        requires { 0 < length buf.old }
        ensures bound { IfOk result (λ n. n ≤ length buf.new) }
        ensures bytes { ReadConsumes (left self.old) (left self.new) result buf.new }
        ensures cause { HasCause (faults self.old) (faults self.new) result };
}

/// Bytes in memory, given in pieces of a stated size. The calls whose numbers are listed fail, and
/// no others; the first call has number 0.
///
/// Contracts see the bytes that are left, the calls and the count of faults.
#[derive(Debug, Drop)]
pub struct MemSource {
    bytes: Vec<u8>,
    at: u64,
    piece: u64,
    fail_calls: Vec<u64>,
    calls: u64,
    faults: u64,
}

impl Model for MemSource {
    ghost use Rattle.std.specs.Prelude.{◌<◌, ◌≤◌, drop, length};
    ghost use Rattle.mont_base.specs.Devices.{Readable};

    ghost Value = { Readable };

    ghost view = { λ s. record {
      left = drop s.at s.bytes.items;
      calls = record { piece = s.piece; failing = s.fail_calls.items; next = s.calls };
      faults = s.faults;
    } };

    ghost invariant = { λ s. (0 < s.piece) × (s.at ≤ length s.bytes.items) };
}

impl MemSource {
    /// A source of these bytes, of which a call gives at most `piece`.
    pub fn new(bytes: Vec<u8>, piece: u64, fail_calls: Vec<u64>) -> MemSource
        requires { 0 < piece }
        ensures { result ≡ record {
          left = bytes.items;
          calls = calls_from_start piece fail_calls.items;
          faults = 0;
        } }
    {
        MemSource {
            bytes,
            at: 0,
            piece,
            fail_calls,
            calls: 0,
            faults: 0,
        }
    }
}

impl Source for MemSource {
    ghost left = { λ s. Some s.left };

    ghost faults = { λ s. s.faults };

    fn read(&mut self, buf: &mut [u8]) -> Result<usize, Failed>
        ensures bound { IfOk result (λ n. n ≤ length buf.new) }
        ensures bytes { ReadConsumes (Some self.old.left) (Some self.new.left) result buf.new }
        ensures cause { HasCause self.old.faults self.new.faults result }
        ensures counted { CountsFaults self.old.faults self.new.faults result }
        ensures answer { OkIff result (fails_next self.old.calls ≡ false)
            (gives_next self.old (length buf.old)) }
        ensures calls { self.new.calls ≡ behind_next self.old.calls }
        ensures buffer { MatchResult result
            (λ n. buf.new ≡ take n self.old.left ++ drop n buf.old) (λ _. buf.new ≡ buf.old) }
    {
        let call = self.calls;
        self.calls = call.saturating_add(1);
        if self.fail_calls.contains(&call) {
            self.faults = self.faults.saturating_add(1);
            return Err(Failed);
        }
        let rest = &self.bytes[self.at as usize..];
        let count = rest.len().min(self.piece as usize).min(buf.len());
        buf[..count].copy_from_slice(&rest[..count]);
        self.at += count as u64;
        Ok(count)
    }
}
