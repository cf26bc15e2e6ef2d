ghost use Rattle.std.specs.Prelude.{◌≡◌, ◌++◌, ◌∷◌, [], OnOk, OnErr, IfOk};

use bmc_base::OutOfMemory;
use bmc_report::Change;
use std::alloc::Global;
use std::marker::Model;

/// What an entry of a log is: an error, or an info.
#[derive(Clone, Copy, Debug, PartialEq, Eq)]
pub enum Class {
    /// Something went wrong.
    Error,
    /// Something else changed.
    Info,
}

/// An entry of a log.
#[derive(Drop)]
pub struct LogEntry {
    /// Its id. Ids rise by one from 1, over both classes; at 2^64 - 1 they stay.
    pub id: u64,
    /// Its class.
    pub class: Class,
    /// How many ticks of 100 milliseconds there were when it was added.
    pub tick: u64,
    /// What changed.
    pub change: Change,
}

impl LogEntry {
    // Returns an equal entry.
    pub(crate) fn copied(&self) -> LogEntry
        ensures { result ≡ self.now }
    {
        LogEntry {
            id: self.id,
            class: self.class,
            tick: self.tick,
            change: self.change.copied(),
        }
    }
}

/// The entries that a log keeps, by id. Where ids are equal errors come first.
#[derive(Drop)]
pub struct Entries {
    list: Vec<LogEntry>,
}

impl Model for Entries {
    ghost use Rattle.std.specs.Prelude.{List};
    ghost use Rattle.event_log.specs.declared.entry.LogEntry.{LogEntry};

    ghost Value = { List LogEntry };

    ghost view = { λ e. e.list.items };
}

impl Entries {
    // Returns a list of no entries, with room for some.
    pub(crate) fn with_capacity(alloc: Global, room: usize) -> Result<Entries, OutOfMemory>
        ensures { IfOk result (λ entries. entries ≡ []) }
    {
        let list = Vec::with_capacity(alloc, room)?;
        Ok(Entries { list })
    }

    // Appends an entry, or changes nothing for want of memory.
    pub(crate) fn push(&mut self, entry: LogEntry) -> Result<(), OutOfMemory>
        ensures ok { OnOk result (self.new ≡ self.old ++ entry ∷ []) }
        ensures err { OnErr result (self.new ≡ self.old) }
    {
        self.list.push(entry)?;
        Ok(())
    }

    /// Borrows the entries.
    pub fn as_slice(&self) -> &[LogEntry]
        ensures { result.now ≡ self.now }
    {
        &self.list
    }
}
