ghost use Rattle.std.specs.Prelude.{◌≡◌, ◌<◌, ℕ, Bool, true, false, not, ◌||◌, ◌&&◌, ◌==◌, length, replicate, slice_set};
ghost use Rattle.std.proofs.Math.Bool.{beq};
ghost use Rattle.std.specs.List.{list_any};
ghost use Rattle.probe_lang.specs.Sights.{has_hit, has_config};
ghost use Rattle.found_set.specs.Marks.{is_marked, is_true, mark_count, AreMarked, AreTrue};
ghost use Rattle.found_set.specs.Found.{is_root};
ghost use Rattle.found_set.specs.Buses.{has_on, is_beyond, is_on_bus};

use crate::facts::MOST_RULES;
use crate::row::Row;
use probe_lang::Hit;
use std::marker::Model;

// The most patterns of a configuration.
pub(crate) const MOST_PATTERNS: usize = 17;

// A mark for each pattern of each configuration.
pub(crate) const PATTERN_MARKS: usize = MOST_RULES * MOST_PATTERNS;

// How many numbers have a mark: those of the configurations of a set, and those of buses.
const MARK_COUNT: usize = 256;

// How many marks a word holds.
const WORD_MARKS: usize = 64;

// The marks of the root buses in the first word, and those of the others.
const ROOT_MARKS: u64 = 0xFFFF;

const OTHER_MARKS: u64 = 0xFFFF_FFFF_FFFF_0000;

/// A mark for each number below 256, or none. Each takes a bit.
#[derive(Drop)]
pub struct Marks {
    words: [u64; 4],
}

impl Model for Marks {
    ghost use Rattle.std.specs.Prelude.{List, Bool};
    ghost use Rattle.found_set.specs.Marks.{marks, is_set};

    ghost Value = { List Bool };

    ghost view = { λ m. marks (is_set m.words) };
}

impl Marks {
    // Returns no marks.
    pub(crate) fn none() -> Marks
        ensures { result ≡ replicate mark_count false }
    {
        Marks { words: [0; 4] }
    }

    /// Returns a mark for each number.
    pub fn all() -> Marks
        ensures { AreMarked result (λ number. true) }
    {
        Marks {
            words: [u64::MAX; 4],
        }
    }

    // Returns the marks of the root buses.
    pub(crate) fn roots() -> Marks
        ensures roots { AreMarked result is_root }
        ensures count { length result ≡ mark_count }
    {
        Marks {
            words: [ROOT_MARKS, 0, 0, 0],
        }
    }

    // Returns the same marks.
    pub(crate) fn copied(&self) -> Marks
        ensures { result ≡ self.now }
    {
        Marks { words: self.words }
    }

    // Whether the same numbers are marked by others.
    pub(crate) fn are_same(&self, others: &Marks) -> bool
        ensures { result ≡ true → self.now ≡ others.now }
    {
        self.words == others.words
    }

    // Returns a mark for each number that is marked here or by others, and not by both.
    pub(crate) fn differences(&self, others: &Marks) -> Marks
        ensures { AreMarked result (λ number. not (beq (is_marked self.now number) (is_marked others.now number))) }
    {
        let (words, others) = (self.words, others.words);
        Marks {
            words: [
                words[0] ^ others[0],
                words[1] ^ others[1],
                words[2] ^ others[2],
                words[3] ^ others[3],
            ],
        }
    }

    // Returns these marks but for those of the root buses.
    pub(crate) fn beyond_roots(&self) -> Marks
        ensures beyond { (test : ℕ → Bool) → AreMarked self.now test → AreMarked result (is_beyond test) }
        ensures count { length self.now ≡ mark_count }
    {
        let mut words = self.words;
        words[0] &= OTHER_MARKS;
        Marks { words }
    }

    /// Whether a number is marked. From 256 on none is.
    pub fn has(&self, number: usize) -> bool
        ensures value { result ≡ is_marked self.now number }
        ensures count { length self.now ≡ mark_count }
    {
        number < MARK_COUNT && (self.words[number / WORD_MARKS] >> (number % WORD_MARKS)) & 1 == 1
    }

    // Sets the bit of a number.
    fn set_bit(&mut self, number: usize)
        requires { number < mark_count }
        ensures marked { AreMarked self.new (λ each. is_marked self.old each || number == each) }
        ensures count_before { length self.old ≡ mark_count }
        ensures count { length self.new ≡ mark_count }
    {
        self.words[number / WORD_MARKS] |= 1 << (number % WORD_MARKS);
    }

    // Marks a number. From 256 on none can be marked.
    pub(crate) fn mark(&mut self, number: usize)
        ensures { AreMarked self.new (λ each. is_marked self.old each || number == each) }
    {
        if number < MARK_COUNT {
            self.set_bit(number);
        }
    }

    // Marks a number that is not marked, where it is to be.
    pub(crate) fn mark_if(&mut self, number: usize, is_found: bool)
        requires small { number < mark_count }
        requires bare { is_marked self.old number ≡ false }
        ensures { self.new ≡ slice_set self.old number is_found }
    {
        if is_found {
            self.set_bit(number);
        }
    }
}

/// Marks each configuration of which a hit is among these, by its number.
pub fn mark_touched(marks: &mut Marks, hits: &[Hit])
    ensures { AreMarked marks.new (λ number. is_marked marks.old number || has_config hits.now number) }
{
    for hit in hits {
        marks.mark(hit.config as usize);
    }
}

// Returns a mark for each configuration that a set can hold, by its number: whether a hit of it is among these.
pub(crate) fn touched_by(hits: &[Hit]) -> Marks
    ensures { AreMarked result (has_config hits.now) }
{
    let mut touched = Marks::none();
    mark_touched(&mut touched, hits);
    touched
}

// Marks the pattern of this hit. Numbers out of range have no mark.
fn mark_hit(marks: &mut [bool; PATTERN_MARKS], hit: Hit)
    ensures { AreTrue marks.new (λ config pattern. is_true marks.old config pattern || (hit.config == config && hit.pattern == pattern)) }
{
    let (config, pattern) = (hit.config as usize, hit.pattern as usize);
    if config < MOST_RULES && pattern < MOST_PATTERNS {
        marks[MOST_PATTERNS * config + pattern] = true;
    }
}

// Marks the patterns of these hits.
fn mark_hits(marks: &mut [bool; PATTERN_MARKS], hits: &[Hit])
    ensures { AreTrue marks.new (λ config pattern. is_true marks.old config pattern || has_hit hits.now config pattern) }
{
    for hit in hits {
        mark_hit(marks, *hit);
    }
}

// Marks the patterns of the hits of a row, if its bus is marked.
pub(crate) fn mark_row(marks: &mut [bool; PATTERN_MARKS], row: &Row, buses: &Marks)
    ensures { (test : ℕ → Bool) → AreMarked buses.now test
        → AreTrue marks.new (λ config pattern. is_true marks.old config pattern || has_on test config pattern row.now) }
{
    if buses.has(row.place.bus() as usize) {
        mark_hits(marks, row.hits.as_slice());
    }
}

// Marks the patterns of the hits of the rows on buses that are marked.
pub(crate) fn mark_rows(marks: &mut [bool; PATTERN_MARKS], rows: &[Row], buses: &Marks)
    ensures { (test : ℕ → Bool) → AreMarked buses.now test
        → AreTrue marks.new (λ config pattern. is_true marks.old config pattern || list_any (has_on test config pattern) rows.now) }
{
    for row in rows {
        mark_row(marks, row, buses);
    }
}

// Whether the bus of a row is marked.
pub(crate) fn is_on(row: &Row, buses: &Marks) -> bool
    ensures { (test : ℕ → Bool) → AreMarked buses.now test → result ≡ test row.now.place.bus }
{
    buses.has(row.place.bus() as usize)
}

// Whether a row is on a bus that is marked.
pub(crate) fn any_is_on(rows: &[Row], buses: &Marks) -> bool
    ensures { (test : ℕ → Bool) → AreMarked buses.now test → result ≡ list_any (is_on_bus test) rows.now }
{
    for row in rows {
        if is_on(row, buses) {
            return true;
        }
    }
    false
}

// Whether this hit is among the hits.
fn has_hit(hits: &[Hit], wanted: Hit) -> bool
    ensures { result ≡ has_hit hits.now wanted.config wanted.pattern }
{
    hits.iter().any(|hit| hit.config == wanted.config && hit.pattern == wanted.pattern)
}

// Whether a row on a bus that is marked has this hit.
pub(crate) fn has_on(row: &Row, hit: Hit, buses: &Marks) -> bool
    ensures { (test : ℕ → Bool) → AreMarked buses.now test → result ≡ has_on test hit.config hit.pattern row.now }
{
    buses.has(row.place.bus() as usize) && has_hit(row.hits.as_slice(), hit)
}

// Whether one of the rows on buses that are marked has this hit.
pub(crate) fn any_has_on(rows: &[Row], hit: Hit, buses: &Marks) -> bool
    ensures { (test : ℕ → Bool) → AreMarked buses.now test → result ≡ list_any (has_on test hit.config hit.pattern) rows.now }
{
    for row in rows {
        if has_on(row, hit, buses) {
            return true;
        }
    }
    false
}
