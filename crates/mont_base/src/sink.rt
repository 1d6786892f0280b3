// Where bytes are written to.
ghost use Rattle.std.specs.Prelude.{◌≡◌, ◌<◌, ◌≤◌, ℕ, List, [], length, false, Option, Some, IfOk};
ghost use Rattle.std.specs.Io.KnownBytes.{WriteAppends};
ghost use Rattle.std.specs.Result.{OkIff};
ghost use Rattle.mont_base.specs.Devices.{calls_from_start, behind_next, fails_next, room_left, takes_next};
ghost use Rattle.mont_base.specs.Faults.{HasCause, CountsFaults};

use crate::source::Failed;
use std::alloc::{AllocError, Global};
use std::marker::Model;

/// A place that takes bytes.
pub trait Sink {
    /// The bytes taken so far, where the sink tells them.
    ghost taken: { Self → Option (List ℕ) };

    /// How often it failed. It never falls, and stands still at the last value of a `u64`.
    ghost faults: { Self → ℕ };

    /// Takes some bytes from the front of the piece, at least one, and says how many. A failure
    /// takes none.
    fn write(&mut self, piece: &[u8]) -> Result<usize, Failed>
        requires { 0 < length piece.now }
        ensures bound { IfOk result (λ n. (0 < n) × (n ≤ length piece.now)) }
        ensures bytes { WriteAppends (taken self.old) (taken self.new) result piece.now }
        ensures cause { HasCause (faults self.old) (faults self.new) result };
}

/// A sink in memory whose room is reserved when it is made. It takes at most a stated number of
/// bytes a call. A call fails where no room is left and where its number is listed, and no other
/// does; the first call has number 0.
///
/// Contracts see the bytes that it took, its room, the calls and the count of faults.
#[derive(Debug, Drop)]
pub struct MemSink {
    taken: Vec<u8>,
    reserved: u64,
    piece: u64,
    fail_calls: Vec<u64>,
    calls: u64,
    faults: u64,
}

impl Model for MemSink {
    ghost use Rattle.std.specs.Prelude.{◌<◌, ◌≤◌, length};
    ghost use Rattle.std.specs.Vec.{vec_capacity};
    ghost use Rattle.mont_base.specs.Devices.{Writable};

    ghost Value = { Writable };

    ghost view = { λ s. record {
      taken = s.taken.items;
      reserved = s.reserved;
      calls = record { piece = s.piece; failing = s.fail_calls.items; next = s.calls };
      faults = s.faults;
    } };

    ghost invariant = { λ s. (0 < s.piece) × (length s.taken.items ≤ s.reserved)
        × (s.reserved ≤ vec_capacity s.taken) };
}

impl MemSink {
    /// A sink with room for `reserved` bytes, which takes at most `piece` of them a call.
    pub fn new(
        alloc: Global,
        reserved: u64,
        piece: u64,
        fail_calls: Vec<u64>,
    ) -> Result<MemSink, AllocError>
        requires { 0 < piece }
        ensures { IfOk result (λ s. s ≡ record {
          taken = [];
          reserved = reserved;
          calls = calls_from_start piece fail_calls.items;
          faults = 0;
        }) }
    {
        Ok(MemSink {
            taken: Vec::with_capacity(alloc, reserved as usize)?,
            reserved,
            piece,
            fail_calls,
            calls: 0,
            faults: 0,
        })
    }

    /// The bytes taken so far.
    pub fn taken(&self) -> &[u8]
        ensures { result.now ≡ self.now.taken }
    {
        self.taken.as_slice()
    }
}

impl Sink for MemSink {
    ghost taken = { λ s. Some s.taken };

    ghost faults = { λ s. s.faults };

    fn write(&mut self, piece: &[u8]) -> Result<usize, Failed>
        requires { 0 < length piece.now }
        ensures bound { IfOk result (λ n. (0 < n) × (n ≤ length piece.now)) }
        ensures bytes { WriteAppends (Some self.old.taken) (Some self.new.taken) result piece.now }
        ensures cause { HasCause self.old.faults self.new.faults result }
        ensures counted { CountsFaults self.old.faults self.new.faults result }
        ensures answer { OkIff result
            ((fails_next self.old.calls ≡ false) × (0 < room_left self.old))
            (takes_next self.old (length piece.now)) }
        ensures calls { self.new.calls ≡ behind_next self.old.calls }
        ensures room { length self.new.taken ≤ self.new.reserved }
        ensures reserved { self.new.reserved ≡ self.old.reserved }
    {
        let call = self.calls;
        self.calls = call.saturating_add(1);
        let room = self.reserved - self.taken.len() as u64;
        let count = (piece.len() as u64).min(self.piece).min(room) as usize;
        let fails = self.fail_calls.contains(&call) || count == 0;
        if fails || self.taken.extend_from_slice(&piece[..count]).is_err() {
            self.faults = self.faults.saturating_add(1);
            return Err(Failed);
        }
        Ok(count)
    }
}
