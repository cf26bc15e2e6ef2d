ghost use Rattle.std.specs.Prelude.{◌≡◌, ◌<◌, ◌≤◌, Some, length, take, min, vec_len, All, IfOk, is_err};
ghost use Rattle.std.specs.Io.{ReadsAtMost};
ghost use Rattle.std.specs.Io.KnownBytes.{ReadConsumes};
ghost use Rattle.bmc_base.specs.Calls.{HasCause, no_calls};
ghost use Rattle.bmc_io.specs.Schedule.{begun};
ghost use Rattle.bmc_io.specs.MemSource.{InputReads, piece_size};

use crate::schedule::Schedule;
use crate::{IoFault, Source};
use bmc_base::{Calls, OutOfMemory};
use std::alloc::Global;
use std::marker::Model;

/// A source in memory, for tests: bytes that come in answers of stated sizes, and calls that are to
/// fail.
#[derive(Drop)]
pub struct MemSource {
    bytes: Vec<u8>,
    at: usize,
    pieces: Vec<usize>,
    schedule: Schedule,
    calls: Calls,
}

impl Model for MemSource {
    ghost use Rattle.std.specs.Prelude.{◌<◌, ◌≤◌, All, vec_len, drop};
    ghost use Rattle.bmc_io.specs.MemSource.{MemoryInput};

    ghost Value = { MemoryInput };

    ghost view = { λ s. record { left = drop s.at s.bytes.items; pieces = s.pieces.items; schedule = s.schedule; calls = s.calls } };

    ghost invariant = { λ s. (s.at ≤ vec_len s.bytes) × All (λ size. 0 < size) s.pieces.items };
}

impl MemSource {
    /// Returns a source of these bytes. `pieces` are the sizes of the answers in order, the last one
    /// repeated; with none, answers are whole. `fails` are the numbers, from 0, of the calls that are to
    /// fail.
    pub fn new(
        alloc: Global,
        bytes: &[u8],
        pieces: &[usize],
        fails: &[u64],
    ) -> Result<MemSource, OutOfMemory>
        requires { All (λ size. 0 < size) pieces.now }
        ensures { IfOk result (λ s. s ≡ record { left = bytes.now; pieces = pieces.now; schedule = begun fails.now; calls = no_calls }) }
    {
        let bytes = Vec::from_slice(alloc, bytes)?;
        let pieces = Vec::from_slice(alloc, pieces)?;
        let schedule = Schedule::new(alloc, fails)?;
        Ok(MemSource {
            bytes,
            at: 0,
            pieces,
            schedule,
            calls: Calls::new(),
        })
    }

    /// Returns how many calls failed.
    pub fn faults(&self) -> u64
        ensures { result ≡ self.now.calls.faults }
    {
        self.calls.faults()
    }
}

// The size of the answer to the call with this number.
fn size_at(pieces: &[usize], call: u64, room: usize) -> usize
    ensures { result ≡ piece_size pieces.now call room }
{
    let last = pieces.len().saturating_sub(1);
    let at = last.min(call as usize);
    pieces.get(at).copied().unwrap_or(room)
}

// Copies the front of `from` over that of `to`, at most `size` bytes, and says how many.
fn copy_front(from: &[u8], to: &mut [u8], size: usize) -> usize
    ensures count { result ≡ min size (min (length to.old) (length from.now)) }
    ensures copied { take result to.new ≡ take result from.now }
{
    let count = size.min(to.len().min(from.len()));
    to[..count].copy_from_slice(&from[..count]);
    count
}

impl Source for MemSource {
    ghost use Rattle.std.specs.Prelude.{Some};

    ghost seen = { λ s. record { left = Some s.left; calls = s.calls } };

    fn read(&mut self, buf: &mut [u8]) -> Result<usize, IoFault>
        requires { 0 < length buf.old }
        ensures bound { ReadsAtMost result buf.new }
        ensures bytes { ReadConsumes (Some self.old.left) (Some self.new.left) result buf.new }
        ensures cause { HasCause self.old.calls self.new.calls result }
        ensures last { self.new.calls.last_failed ≡ is_err result }
        ensures exact { InputReads self.old self.new result buf.old buf.new }
    {
        let call = self.schedule.next();
        if self.schedule.advance() {
            self.calls.add_failure();
            return Err(IoFault);
        }
        self.calls.add_success();
        let size = size_at(&self.pieces, call, buf.len());
        let count = copy_front(&self.bytes[self.at..], buf, size);
        self.at += count;
        Ok(count)
    }
}
