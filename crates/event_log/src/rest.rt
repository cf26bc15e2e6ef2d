ghost use Rattle.std.specs.Prelude.{◌≡◌, option_copied, option_map, drop, slice_get};
ghost use Rattle.event_log.specs.Rising.{is_error_first, GivesFirst};

use crate::LogEntry;
use circular_buffer::HeapCircularBuffer;
use std::marker::Model;

// The entries of a class that are not listed yet.
#[derive(Drop)]
pub(crate) struct Rest<'a> {
    entries: &'a HeapCircularBuffer<LogEntry>,
    listed: usize,
}

impl<'a> Model for Rest<'a> {
    ghost use Rattle.std.specs.Prelude.{List, drop, ◌≤◌, length};
    ghost use Rattle.event_log.specs.declared.entry.LogEntry.{LogEntry};

    ghost Value = { List LogEntry };

    ghost view = { λ r. drop r.listed r.entries.now.items };

    ghost invariant = { λ r. r.listed ≤ length r.entries.now.items };
}

impl<'a> Rest<'a> {
    // Returns all entries of a class.
    pub(crate) fn of(entries: &'a HeapCircularBuffer<LogEntry>) -> Rest<'a>
        ensures { result ≡ entries.now.items }
    {
        Rest { entries, listed: 0 }
    }

    // Returns the id of the first entry.
    fn first_id(&self) -> Option<u64>
        ensures { result ≡ option_map (λ entry. entry.id) (slice_get self.now 0) }
    {
        self.entries.get(self.listed).map(|entry| entry.id)
    }

    // Takes the first entry.
    fn next(&mut self) -> Option<&'a LogEntry>
        ensures entry { option_copied result ≡ slice_get self.old 0 }
        ensures after { self.new ≡ drop 1 self.old }
    {
        if self.entries.len() <= self.listed {
            return None;
        }
        let entry = self.entries.get(self.listed);
        self.listed += 1;
        entry
    }
}

// Whether an error with this id comes before an info with that one.
fn is_error_first(error: Option<u64>, info: Option<u64>) -> bool
    ensures { result ≡ is_error_first error info }
{
    match (error, info) {
        (Some(error), Some(info)) => error <= info,
        (_, None) => true,
        (None, Some(_)) => false,
    }
}

// Takes the first entry by id of both classes.
pub(crate) fn next_by_id<'a>(errors: &mut Rest<'a>, infos: &mut Rest<'a>) -> Option<&'a LogEntry>
    ensures { GivesFirst errors.old infos.old (option_copied result) errors.new infos.new }
{
    if is_error_first(errors.first_id(), infos.first_id()) {
        errors.next()
    } else {
        infos.next()
    }
}
