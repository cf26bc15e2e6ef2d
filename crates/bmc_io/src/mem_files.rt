ghost use Rattle.std.specs.Prelude.{◌≡◌, ◌∷◌, ◌++◌, [], IfOk, OnOk, OnErr};
ghost use Rattle.std.specs.Option.{option_copied};
ghost use Rattle.bmc_base.specs.Calls.{no_calls};
ghost use Rattle.bmc_io.specs.Files.{bytes_of, ReadsFile};
ghost use Rattle.bmc_io.specs.Schedule.{begun, fails_next, advanced};
ghost use Rattle.bmc_io.specs.MemFiles.{folder_of, AnswersExactly};

use crate::failures::Failures;
use crate::schedule::Schedule;
use crate::{FileFault, Files, Whole};
use bmc_base::{Bytes, OutOfMemory, Text};
use std::alloc::Global;
use std::marker::Model;

/// Files in memory, for tests: names with bytes, and calls that are to fail.
#[derive(Drop)]
pub struct MemFiles {
    files: Vec<(Text, Bytes)>,
    schedule: Schedule,
    failures: Failures,
}

impl Model for MemFiles {
    ghost use Rattle.bmc_io.specs.MemFiles.{MemoryFolder};

    ghost Value = { MemoryFolder };

    ghost view = { λ s. record { holds = s.files.items; schedule = s.schedule; calls = s.failures.calls; failed_names = s.failures.names } };
}

impl MemFiles {
    /// Returns an empty folder. `fails` are the numbers, from 0, of the calls that are to fail.
    pub fn new(alloc: Global, fails: &[u64]) -> Result<MemFiles, OutOfMemory>
        ensures { IfOk result (λ s. s ≡ record { holds = []; schedule = begun fails.now; calls = no_calls; failed_names = [] }) }
    {
        let files = Vec::with_capacity(alloc, 1)?;
        let schedule = Schedule::new(alloc, fails)?;
        Ok(MemFiles {
            files,
            schedule,
            failures: Failures::new(alloc),
        })
    }

    /// Adds a file, in place of an earlier one of that name. An `Err` changes nothing.
    pub fn add(&mut self, alloc: Global, name: &str, bytes: &[u8]) -> Result<(), OutOfMemory>
        ensures ok { OnOk result (self.new ≡ record self.old { holds = self.old.holds ++ (name.now, bytes.now) ∷ [] }) }
        ensures err { OnErr result (self.new ≡ self.old) }
    {
        let file = (Text::copy(alloc, name)?, Bytes::copy(alloc, bytes)?);
        self.files.push(file)?;
        Ok(())
    }

    /// Borrows the names that were answered `Failed`.
    pub fn failed_names(&self) -> &[Text]
        ensures { result.now ≡ self.now.failed_names }
    {
        self.failures.names()
    }

    /// Returns how many calls failed.
    pub fn faults(&self) -> u64
        ensures { result ≡ self.now.calls.faults }
    {
        self.failures.faults()
    }
}

// The bytes of the file with this name: of two the later one counts.
fn file_named<'a>(files: &'a [(Text, Bytes)], name: &str) -> Option<&'a Bytes>
    ensures { option_copied result ≡ bytes_of files.now name.now }
{
    let found = files.iter().rev().find(|file| file.0.as_str() == name);
    found.map(|file| &file.1)
}

// The bytes of the file, or that they are more than `limit`, as far as this call is not to fail.
fn answer(
    alloc: Global,
    file: Option<&Bytes>,
    limit: usize,
    fails: bool,
) -> Result<Whole, FileFault>
    ensures { AnswersExactly fails (option_copied file.entry) limit result }
{
    match file {
        Some(bytes) if !fails => {
            let bytes = bytes.as_slice();
            if bytes.len() <= limit {
                Ok(Whole::Given(Bytes::copy(alloc, bytes)?))
            } else {
                Ok(Whole::Longer)
            }
        }
        _ => Err(FileFault::Failed),
    }
}

impl Files for MemFiles {
    ghost use Rattle.bmc_io.specs.MemFiles.{folder_of};

    ghost seen = { folder_of };

    fn read_whole(&mut self, alloc: Global, name: &str, limit: usize) -> Result<Whole, FileFault>
        ensures seen { ReadsFile (folder_of self.old) (folder_of self.new) name.now limit result }
        ensures exact { AnswersExactly (fails_next self.old.schedule) (bytes_of self.old.holds name.now) limit result }
        ensures schedule { self.new.schedule ≡ advanced self.old.schedule }
    {
        let fails = self.schedule.advance();
        self.failures.begin();
        let copied = self.failures.room_for(alloc, name)?;
        let file = file_named(&self.files, name);
        match answer(alloc, file, limit, fails) {
            Err(FileFault::Failed) => Err(self.failures.add(copied)),
            answer => answer,
        }
    }
}
