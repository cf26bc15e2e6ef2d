ghost use Rattle.std.specs.Prelude.{◌≡◌, ◌<◌, ◌≤◌, ◌+◌, ◌++◌, [], length, vec_len, vec_capacity, IfOk, is_err};
ghost use Rattle.bmc_base.specs.Calls.{HasCause, no_calls};
ghost use Rattle.bmc_io.specs.Told.Told.{Bytes};
ghost use Rattle.bmc_io.specs.Sinks.{TakesSome, WriteAdds};
ghost use Rattle.bmc_io.specs.Schedule.{begun};
ghost use Rattle.bmc_io.specs.MemSink.{OutputWrites};

use crate::schedule::Schedule;
use crate::{IoFault, Sink};
use bmc_base::{Calls, OutOfMemory};
use std::alloc::Global;
use std::marker::Model;

/// A sink in memory, for tests: at most `piece` bytes a call, `room` bytes in all, and calls that are
/// to fail.
#[derive(Drop)]
pub struct MemSink {
    bytes: Vec<u8>,
    piece: usize,
    room: usize,
    schedule: Schedule,
    calls: Calls,
}

impl Model for MemSink {
    ghost use Rattle.std.specs.Prelude.{◌<◌, ◌≤◌, length, vec_capacity};
    ghost use Rattle.bmc_io.specs.MemSink.{MemoryOutput};

    ghost Value = { MemoryOutput };

    ghost view = { λ s. record { taken = s.bytes.items; piece = s.piece; room = s.room; schedule = s.schedule; calls = s.calls } };

    ghost invariant = { λ s. (0 < s.piece) × (length s.bytes.items ≤ s.room) × (s.room ≤ vec_capacity s.bytes) };
}

impl MemSink {
    /// Returns a sink that takes at most `piece` bytes a call and `room` bytes in all, and takes that
    /// room now: no `write` takes memory. `fails` are the numbers, from 0, of the calls that are to fail.
    pub fn new(
        alloc: Global,
        piece: usize,
        room: usize,
        fails: &[u64],
    ) -> Result<MemSink, OutOfMemory>
        requires { 0 < piece }
        ensures { IfOk result (λ s. s ≡ record { taken = []; piece = piece; room = room; schedule = begun fails.now; calls = no_calls }) }
    {
        let bytes = Vec::with_capacity(alloc, room)?;
        let schedule = Schedule::new(alloc, fails)?;
        Ok(MemSink {
            bytes,
            piece,
            room,
            schedule,
            calls: Calls::new(),
        })
    }

    /// Borrows the bytes that were taken.
    pub fn bytes(&self) -> &[u8]
        ensures { result.now ≡ self.now.taken }
    {
        &self.bytes
    }

    /// Returns how many calls failed.
    pub fn faults(&self) -> u64
        ensures { result ≡ self.now.calls.faults }
    {
        self.calls.faults()
    }
}

// Appends within the capacity, which takes no memory.
fn push_within(bytes: &mut Vec<u8>, piece: &[u8])
    requires { vec_len bytes.old + length piece.now ≤ vec_capacity bytes.old }
    ensures items { bytes.new.items ≡ bytes.old.items ++ piece.now }
    ensures capacity { vec_capacity bytes.old ≤ vec_capacity bytes.new }
{
    bytes.extend_from_slice(piece).unwrap();
}

impl Sink for MemSink {
    ghost use Rattle.bmc_io.specs.Told.Told.{Bytes};

    ghost seen = { λ s. record { taken = Bytes s.taken; calls = s.calls } };

    fn write(&mut self, piece: &[u8]) -> Result<usize, IoFault>
        requires { 0 < length piece.now }
        ensures bound { TakesSome result piece.now }
        ensures bytes { WriteAdds (Bytes self.old.taken) (Bytes self.new.taken) result piece.now }
        ensures cause { HasCause self.old.calls self.new.calls result }
        ensures last { self.new.calls.last_failed ≡ is_err result }
        ensures exact { OutputWrites self.old self.new result piece.now }
    {
        let left = self.room - self.bytes.len();
        if self.schedule.advance() || left == 0 {
            self.calls.add_failure();
            return Err(IoFault);
        }
        self.calls.add_success();
        let count = self.piece.min(piece.len().min(left));
        push_within(&mut self.bytes, &piece[..count]);
        Ok(count)
    }
}
