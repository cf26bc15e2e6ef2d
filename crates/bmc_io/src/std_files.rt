ghost use Rattle.std.specs.Prelude.{◌≡◌, ◌<◌, ◌≤◌, ◌+◌, [], None, vec_len, IfOk};
ghost use Rattle.std.specs.Io.{StartsWith, appended_bytes};
ghost use Rattle.std.specs.Io.KnownBytes.{Consumes, IsAtEnd};
ghost use Rattle.bmc_base.specs.Calls.{no_calls};
ghost use Rattle.bmc_io.specs.Files.{IsWhole};
ghost use Rattle.bmc_io.specs.StdFiles.{IsWholeOf};

use crate::failures::Failures;
use crate::retry::read_uninterrupted;
use crate::{FileFault, Files, Whole};
use bmc_base::{Bytes, Text};
use std::alloc::Global;
use std::fs;
use std::io::Read;
use std::marker::Model;

/// The files of the system, reached as the standard library does. They tell nothing of what they hold. A
/// read that a signal interrupts is made again, and is no fault.
#[derive(Drop)]
pub struct StdFiles<F: std::rt::Files> {
    access: F,
    failures: Failures,
}

impl<F: std::rt::Files> Model for StdFiles<F> {
    ghost use Rattle.std.specs.Prelude.{None};
    ghost use Rattle.bmc_io.specs.Files.{Folder};

    ghost Value = { Folder };

    ghost view = { λ s. record { holds = None; calls = s.failures.calls; failed_names = s.failures.names } };
}

impl<F: std::rt::Files> StdFiles<F> {
    /// Returns the files that `access` opens, with no call made yet.
    pub fn new(access: F, alloc: Global) -> StdFiles<F>
        ensures { result ≡ record { holds = None; calls = no_calls; failed_names = [] } }
    {
        StdFiles {
            access,
            failures: Failures::new(alloc),
        }
    }

    /// Borrows the names that were answered `Failed`.
    pub fn failed_names(&self) -> &[Text]
        ensures { result.now ≡ self.now.failed_names }
    {
        self.failures.names()
    }

    /// Returns how many calls failed.
    pub fn faults(&self) -> u64
        ensures { result ≡ self.now.calls.faults }
    {
        self.failures.faults()
    }
}

// How many bytes one read takes at the most.
const PIECE: usize = 4096;

// Appends what one read gives: nothing only at the end, and no more than one byte above the limit.
fn read_piece<R: Read>(
    reader: &mut R,
    bytes: &mut Vec<u8>,
    limit: usize,
) -> Result<usize, FileFault>
    requires { vec_len bytes.old ≤ limit }
    ensures len { IfOk result (λ n. vec_len bytes.new ≡ vec_len bytes.old + n) }
    ensures starts { StartsWith bytes.new.items bytes.old.items }
    ensures taken { IfOk result (λ n. Consumes (R.remaining reader.old) (R.remaining reader.new) (appended_bytes bytes.old.items bytes.new.items)) }
    ensures at_end { IfOk result (λ n. n ≡ 0 → IsAtEnd (R.remaining reader.new)) }
{
    let mut piece = [0; PIECE];
    let room = (limit - bytes.len()).saturating_add(1).min(PIECE);
    let count = read_uninterrupted(reader, &mut piece[..room])?;
    bytes.extend_from_slice(&piece[..count])?;
    Ok(count)
}

// Reads to the end, or to one byte above the limit.
#[tactic(auto, using(crate::proofs::StdFilesLemmas::gathered_more, crate::proofs::StdFilesLemmas::gathered_all, crate::proofs::StdFilesLemmas::gathered_longer))]
pub(crate) fn read_to_limit<R: Read>(
    alloc: Global,
    reader: &mut R,
    limit: usize,
) -> Result<Whole, FileFault>
    ensures { IfOk result (λ whole. IsWholeOf (R.remaining reader.old) limit whole) }
{
    let mut bytes = Vec::new(alloc);
    while bytes.len() <= limit {
        if read_piece(reader, &mut bytes, limit)? == 0 {
            return Ok(Whole::Given(Bytes::from(bytes)));
        }
    }
    Ok(Whole::Longer)
}

// Opens the file and reads it.
fn read_file<F: std::rt::Files>(
    access: &F,
    alloc: Global,
    name: &str,
    limit: usize,
) -> Result<Whole, FileFault>
    ensures { IfOk result (λ whole. IsWhole None name.now limit whole) }
{
    let mut file = fs::open(access, name)?;
    read_to_limit(alloc, &mut file, limit)
}

impl<F: std::rt::Files> Files for StdFiles<F> {
    ghost seen = { λ s. s };

    fn read_whole(&mut self, alloc: Global, name: &str, limit: usize) -> Result<Whole, FileFault> {
        self.failures.begin();
        let copied = self.failures.room_for(alloc, name)?;
        match read_file(&self.access, alloc, name, limit) {
            Err(FileFault::Failed) => Err(self.failures.add(copied)),
            answer => answer,
        }
    }
}
