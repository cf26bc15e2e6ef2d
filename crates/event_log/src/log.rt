ghost use Rattle.std.specs.Prelude.{◌≡◌, ◌≤◌, [], IfOk};
ghost use Rattle.bmc_base.specs.Counts.{raised};
ghost use Rattle.event_log.specs.declared.entry.Class.TheVariants.{Error, Info};
ghost use Rattle.event_log.specs.Kept.{most_errors};
ghost use Rattle.event_log.specs.Stands.{Stands, Takes, Lists};
ghost use Rattle.event_log.specs.Updates.{empty_log, next_entry, buffer_with, with_entry};
ghost use Rattle.event_log.specs.Updates.{entries_of};

use crate::rest::{Rest, next_by_id};
use crate::{Class, Entries, LogEntry};
use bmc_base::OutOfMemory;
use bmc_report::Change;
use circular_buffer::HeapCircularBuffer;
use std::alloc::Global;
use std::marker::Model;

// How many infos are kept.
const INFO_CAP: usize = 10;

/// A log. It keeps the latest entries of each class, so many errors as it is made for and 10 infos.
/// All its memory is taken when it is made.
#[derive(Drop)]
pub struct Log {
    errors: HeapCircularBuffer<LogEntry>,
    infos: HeapCircularBuffer<LogEntry>,
    last_id: u64,
}

impl Model for Log {
    ghost use Rattle.std.specs.Prelude.{◌≡◌, ◌≤◌};
    ghost use Rattle.event_log.specs.Kept.{info_cap};
    ghost use Rattle.event_log.specs.Rising.{IsRising};
    ghost use Rattle.event_log.specs.Stands.{LogView};

    ghost Value = { LogView };

    ghost view = { λ l. record {
      errors = l.errors.items;
      infos = l.infos.items;
      error_cap = l.errors.capacity;
      last_id = l.last_id;
    } };

    ghost invariant = { λ l.
        (1 ≤ l.errors.capacity)
        × (l.infos.capacity ≡ info_cap)
        × IsRising 0 l.errors.items l.last_id
        × IsRising 0 l.infos.items l.last_id };
}

impl Log {
    /// Returns a log without entries, which keeps so many errors, 1 to 1,000. Fails only for want
    /// of memory.
    pub fn new(alloc: Global, error_cap: u32) -> Result<Log, OutOfMemory>
        requires low { 1 ≤ error_cap }
        requires high { error_cap ≤ most_errors }
        ensures stands { IfOk result (λ log. Stands log []) }
        ensures empty { IfOk result (λ log. log ≡ empty_log error_cap) }
    {
        Ok(Log {
            errors: HeapCircularBuffer::with_capacity(alloc, error_cap as usize)?,
            infos: HeapCircularBuffer::with_capacity(alloc, INFO_CAP)?,
            last_id: 0,
        })
    }

    /// Adds an entry at this tick, and returns its id. Where as many entries of its class are kept
    /// as may be, the oldest of them is dropped. It takes no memory.
    pub fn add(&mut self, class: Class, tick: u64, change: Change) -> u64
        ensures id { result ≡ raised self.old.last_id 1 }
        ensures takes { Takes self.old self.new (next_entry self.old class tick change) }
        ensures after { self.new ≡ with_entry self.old (next_entry self.old class tick change) }
    {
        let id = self.last_id.saturating_add(1);
        let entry = LogEntry {
            id,
            class,
            tick,
            change,
        };
        push_newest(&mut self.errors, &mut self.infos, entry);
        self.last_id = id;
        id
    }

    /// Returns the entries that are kept, by id. Where ids are equal errors come first, and the
    /// entries of a class in the order in which they were added.
    pub fn entries(&self, alloc: Global) -> Result<Entries, OutOfMemory>
        ensures lists { IfOk result (λ entries. Lists self.now entries) }
        ensures all { IfOk result (λ entries. entries ≡ entries_of self.now) }
    {
        let mut entries = Entries::with_capacity(alloc, self.errors.len() + self.infos.len())?;
        let mut errors = Rest::of(&self.errors);
        let mut infos = Rest::of(&self.infos);
        'list: while let Some(entry) = next_by_id(&mut errors, &mut infos) {
            entries.push(entry.copied())?;
        }
        Ok(entries)
    }
}

// Puts an entry behind those of its class, in place of the oldest where there is no room.
fn push_newest(
    errors: &mut HeapCircularBuffer<LogEntry>,
    infos: &mut HeapCircularBuffer<LogEntry>,
    entry: LogEntry,
)
    ensures errors { errors.new ≡ buffer_with Error errors.old entry }
    ensures infos { infos.new ≡ buffer_with Info infos.old entry }
{
    match entry.class {
        Class::Error => errors.push_back(entry),
        Class::Info => infos.push_back(entry),
    };
}
