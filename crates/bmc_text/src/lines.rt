ghost use Rattle.std.specs.Prelude.{◌≡◌, ◌≢◌, ◌<◌, ◌≤◌, ◌+◌, ◌++◌, [], List, ℕ, length, take, drop, false, true, Ok, Some, IfOk, OnOk, OnErr, IfErr, IfSome};
ghost use Rattle.std.specs.Prelude.{IfNone, MatchOption, IsOkUnless};
ghost use Rattle.std.specs.Io.KnownBytes.{Keeps, IsAtEnd};
ghost use Rattle.bmc_text.specs.Newlines.{HasNoNewline, IsNewline};
ghost use Rattle.bmc_text.specs.Items.{line_item, longest_line, behind_block, whole_block};
ghost use Rattle.bmc_text.specs.Feeds.{IsWithin, Reads, longest_script, longest_piece};
ghost use Rattle.bmc_text.specs.Faults.{HasReadCause};
ghost use Rattle.bmc_text.specs.Lines.{line_got, TakesLine, TakesNext};
ghost use Rattle.bmc_text.specs.Blocks.{item_of_block, TakesBlock, LacksBlock, HoldsFront};

use crate::block::{Block, BlockPart};
use crate::buffer::{LONGEST_LINE, line_of, newline_behind, refill};
use bmc_base::OutOfMemory;
use bmc_io::Source;
use std::alloc::Global;
use std::marker::Model;
use thiserror::Error;

/// The most bytes that are read of a source.
pub(crate) const LONGEST_SCRIPT: u64 = 1 << 40;

/// The size of the buffer, and so of the largest piece that is read at once.
const LONGEST_PIECE: usize = 64 * 1024;

/// What was got of a script.
#[derive(Clone, Copy, Debug, PartialEq, Eq)]
pub enum Got {
    /// A line, which `Lines::line` reads.
    Line,
    /// A line of more than 9,000 bytes before its newline or the end, which was dropped.
    LineTooLong,
    /// The end of the source.
    End,
}

/// Why nothing was got.
#[derive(Clone, Copy, Debug, PartialEq, Eq, Error)]
pub enum LineFault {
    /// The source failed.
    #[error("input failed")]
    ReadFault,
    /// A read was wanted after 2^40 bytes.
    #[error("more than 2^40 bytes of input")]
    Spent,
    /// There was no memory for a block.
    #[error("out of memory")]
    OutOfMemory,
}

impl From<OutOfMemory> for LineFault {
    ghost use Rattle.bmc_text.specs.declared.lines.LineFault.TheVariants.{OutOfMemory};

    ghost from_gives = { λ _ fault. fault ≡ OutOfMemory };

    fn from(_: OutOfMemory) -> Self {
        LineFault::OutOfMemory
    }
}

/// The lines of a source, read in pieces of up to 64 KiB into one buffer.
#[derive(Drop)]
pub struct Lines {
    buffer: Vec<u8>,
    // The line that was taken last.
    line_start: usize,
    line_end: usize,
    // The bytes that wait, and how many of them were searched for a newline and have none.
    start: usize,
    end: usize,
    searched: usize,
    read: u64,
    ended: bool,
}

impl Model for Lines {
    ghost use Rattle.std.specs.Prelude.{◌≡◌, ◌≤◌, ◌<◌, ◌+◌, true, vec_len, slice_range, take};
    ghost use Rattle.bmc_text.specs.Feeds.{Feed, longest_script, longest_piece};
    ghost use Rattle.bmc_text.specs.Newlines.{HasNoNewline};

    ghost Value = { Feed };

    ghost view = { λ l. record {
      line = slice_range l.buffer.items l.line_start l.line_end;
      waiting = slice_range l.buffer.items l.start l.end;
      read = l.read;
      ended = l.ended;
    } };

    ghost invariant = { λ l. (l.line_start ≤ l.line_end)
        × (l.line_end ≤ vec_len l.buffer)
        × (l.start + l.searched ≤ l.end)
        × (l.end ≤ vec_len l.buffer)
        × (vec_len l.buffer ≡ longest_piece)
        × (l.read ≤ longest_script)
        × (l.ended ≡ true → (l.start ≡ l.end) × (l.read < longest_script))
        × HasNoNewline (take l.searched (slice_range l.buffer.items l.start l.end)) };
}

impl Lines {
    /// A reader that has read nothing. It takes its buffer here, once.
    pub fn new(alloc: Global) -> Result<Lines, OutOfMemory>
        ensures { IfOk result (λ lines. lines ≡ record { line = []; waiting = []; read = 0; ended = false }) }
    {
        let buffer = vec![in alloc; 0; LONGEST_PIECE]?;
        Ok(Lines {
            buffer,
            line_start: 0,
            line_end: 0,
            start: 0,
            end: 0,
            searched: 0,
            read: 0,
            ended: false,
        })
    }

    /// The line that was taken last, without the carriage return at its end.
    #[inline]
    pub fn line(&self) -> &[u8]
        ensures { result.now ≡ self.now.line }
    {
        &self.buffer[self.line_start..self.line_end]
    }

    /// Whether the source has given its end and nothing waits any more.
    pub fn is_ended(&self) -> bool
        ensures { result ≡ self.now.ended }
    {
        self.ended
    }

    /// Takes the next line among the bytes that wait, or returns none where no line is whole in them; then
    /// nothing changes.
    #[inline]
    pub fn next_buffered(&mut self) -> Option<Got>
        ensures next { IfSome result (λ got. TakesLine (line_got got self.new.line) false self.old.waiting self.new.waiting) }
        ensures none { IfNone result (HasNoNewline self.old.waiting) }
        ensures same { IfNone result (self.new ≡ self.old) }
        ensures frame { self.new ≡ record self.old { line = self.new.line; waiting = self.new.waiting } }
        ensures going { IfSome result (λ _. self.old.ended ≡ false) }
        ensures limit { IsWithin self.new.read self.new.ended }
    {
        let at = self.newline()?;
        Some(self.take_line(at, at + 1))
    }

    /// Takes the next line of the source. It reads only while no line is whole in what waits, and not again
    /// once the source has given its end. It is not called again after a fault.
    pub fn next<S: Source>(&mut self, source: &mut S) -> Result<Got, LineFault>
        ensures next { IfOk result (λ got. TakesNext got self.old self.new (S.seen source.old) (S.seen source.new)) }
        ensures at_end { OnOk result ((self.old.ended ≡ true → IsAtEnd (S.seen source.old).left) → self.new.ended ≡ true → IsAtEnd (S.seen source.new).left) }
        ensures lacks { OnErr result (Reads self.old.waiting self.old.read self.new.read (S.seen source.old) (S.seen source.new) HasNoNewline) }
        ensures cause { HasReadCause result self.new.read (S.seen source.old).calls (S.seen source.new).calls }
        ensures memory { IfErr result (λ fault. fault ≢ LineFault.OutOfMemory) }
        ensures limit { IsWithin self.new.read self.new.ended }
        ensures waits { (HasNoNewline self.old.waiting → ⊥) → self.new.read ≡ self.old.read }
        ensures after_end { self.old.ended ≡ true → (result ≡ Ok Got.End) × (self.new ≡ self.old) × Keeps (S.seen source.old).left (S.seen source.new).left }
    {
        if self.ended {
            return Ok(Got::End);
        }
        if let Some(got) = self.next_buffered() {
            return Ok(got);
        }
        self.read_line(source)
    }

    /// Takes the block of `n` bytes that a line asked for, and a newline directly behind it. It reads only while
    /// the block and the byte behind it do not all wait, and not again once the source has given its end. It
    /// takes memory for the block before it reads, and is not called again after a fault. Behind a block
    /// there is no line.
    pub fn block<S: Source>(
        &mut self,
        alloc: Global,
        source: &mut S,
        n: u32,
    ) -> Result<Block, LineFault>
        ensures block { IfOk result (λ block. TakesBlock n block self.old self.new (S.seen source.old) (S.seen source.new)) }
        ensures line { OnOk result (self.old.ended ≡ false → self.new.line ≡ []) }
        ensures at_end { OnOk result ((self.old.ended ≡ true → IsAtEnd (S.seen source.old).left) → self.new.ended ≡ true → IsAtEnd (S.seen source.new).left) }
        ensures lacks { IfErr result (λ fault.
            Reads self.old.waiting self.old.read self.new.read (S.seen source.old) (S.seen source.new) (LacksBlock fault n)) }
        ensures cause { HasReadCause result self.new.read (S.seen source.old).calls (S.seen source.new).calls }
        ensures limit { IsWithin self.new.read self.new.ended }
        ensures waits { n < length self.old.waiting → self.new.read ≡ self.old.read }
        ensures after_end { self.old.ended ≡ true → IsOkUnless result LineFault.OutOfMemory × (self.new ≡ self.old) }
    {
        let ended = self.ended;
        let part = BlockPart::new(alloc, n as usize)?;
        if ended {
            return Ok(part.finish());
        }
        self.read_block(source, part)
    }

    // Takes a block of which no byte came yet, and a newline behind it, where the source goes on.
    #[inline(never)]
    fn read_block<S: Source>(
        &mut self,
        source: &mut S,
        mut part: BlockPart,
    ) -> Result<Block, LineFault>
        requires none { HoldsFront part [] }
        requires going { self.old.ended ≡ false }
        ensures block { IfOk result (λ block. TakesBlock part.size block self.old self.new (S.seen source.old) (S.seen source.new)) }
        ensures line { OnOk result (self.new.line ≡ []) }
        ensures at_end { OnOk result (self.new.ended ≡ true → IsAtEnd (S.seen source.new).left) }
        ensures lacks { IfErr result (λ fault.
            Reads self.old.waiting self.old.read self.new.read (S.seen source.old) (S.seen source.new) (LacksBlock fault part.size)) }
        ensures cause { HasReadCause result self.new.read (S.seen source.old).calls (S.seen source.new).calls }
        ensures memory { IfErr result (λ fault. fault ≢ LineFault.OutOfMemory) }
        ensures limit { IsWithin self.new.read self.new.ended }
        ensures waits { part.size < length self.old.waiting → self.new.read ≡ self.old.read }
    {
        'pieces: while self.waiting().len() <= part.wanted() {
            part.push(self.waiting());
            self.drop_waiting();
            if self.fill(source)? == 0 {
                self.finish();
                return Ok(part.finish());
            }
        }
        Ok(self.take_block(part))
    }

    // Takes the rest of a block, which waits with the byte behind it, and a newline behind it.
    #[inline(never)]
    pub(crate) fn take_block(&mut self, mut part: BlockPart) -> Block
        requires { part.wanted < length self.old.waiting }
        ensures block { (front : List ℕ) → HoldsFront part front
            → whole_block part.size (front ++ self.old.waiting) ≡ Some (item_of_block result, self.new.waiting) }
        ensures frame { self.new ≡ record self.old { line = []; waiting = self.new.waiting } }
        ensures going { self.old.ended ≡ false }
        ensures limit { IsWithin self.new.read self.new.ended }
    {
        let wanted = part.wanted();
        part.push(&self.waiting()[..wanted]);
        self.take(0, wanted);
        self.drop_newline();
        part.finish()
    }

    // Drops a newline at the front of what waits.
    fn drop_newline(&mut self)
        ensures { self.new ≡ record self.old { waiting = behind_block self.old.waiting } }
    {
        if self.waiting().first() == Some(&b'\n') {
            self.drop_front(1);
        }
    }

    // Takes the next line, where none is whole in what waits and the source goes on.
    fn read_line<S: Source>(&mut self, source: &mut S) -> Result<Got, LineFault>
        requires none { HasNoNewline self.old.waiting }
        requires going { self.old.ended ≡ false }
        ensures next { IfOk result (λ got. TakesNext got self.old self.new (S.seen source.old) (S.seen source.new)) }
        ensures at_end { OnOk result (self.new.ended ≡ true → IsAtEnd (S.seen source.new).left) }
        ensures lacks { OnErr result (Reads self.old.waiting self.old.read self.new.read (S.seen source.old) (S.seen source.new) HasNoNewline) }
        ensures cause { HasReadCause result self.new.read (S.seen source.old).calls (S.seen source.new).calls }
        ensures memory { IfErr result (λ fault. fault ≢ LineFault.OutOfMemory) }
        ensures limit { IsWithin self.new.read self.new.ended }
    {
        'pieces: while self.waiting().len() <= LONGEST_LINE {
            if self.fill(source)? == 0 {
                return Ok(self.take_last());
            }
            if let Some(got) = self.next_buffered() {
                return Ok(got);
            }
        }
        self.skip_line(source)
    }

    // Drops a line that is too long, of which all that waits is the front, and its newline.
    fn skip_line<S: Source>(&mut self, source: &mut S) -> Result<Got, LineFault>
        requires long { longest_line < length self.old.waiting }
        requires none { HasNoNewline self.old.waiting }
        requires going { self.old.ended ≡ false }
        ensures next { IfOk result (λ got. TakesNext got self.old self.new (S.seen source.old) (S.seen source.new)) }
        ensures at_end { OnOk result (self.new.ended ≡ true → IsAtEnd (S.seen source.new).left) }
        ensures lacks { OnErr result (Reads self.old.waiting self.old.read self.new.read (S.seen source.old) (S.seen source.new) HasNoNewline) }
        ensures cause { HasReadCause result self.new.read (S.seen source.old).calls (S.seen source.new).calls }
        ensures memory { IfErr result (λ fault. fault ≢ LineFault.OutOfMemory) }
        ensures limit { IsWithin self.new.read self.new.ended }
    {
        'pieces: loop {
            self.drop_waiting();
            if self.fill(source)? == 0 {
                self.finish();
                return Ok(Got::LineTooLong);
            }
            if let Some(at) = self.newline() {
                self.take(0, at + 1);
                return Ok(Got::LineTooLong);
            }
        }
    }

    // Reads a piece behind what waits, and answers its length, which is 0 only at the end.
    fn fill<S: Source>(&mut self, source: &mut S) -> Result<usize, LineFault>
        requires short { length self.old.waiting ≤ longest_line }
        requires going { self.old.ended ≡ false }
        ensures reads { Reads self.old.waiting self.old.read self.new.read (S.seen source.old) (S.seen source.new) (λ bytes. bytes ≡ self.new.waiting) }
        ensures frame { self.new ≡ record self.old { line = self.new.line; waiting = self.new.waiting; read = self.new.read } }
        ensures count { IfOk result (λ count. self.new.read ≡ self.old.read + count) }
        ensures line { OnOk result (self.new.line ≡ []) }
        ensures same { OnErr result (self.new ≡ record self.old { line = self.new.line }) }
        ensures at_end { IfOk result (λ count. count ≡ 0 → IsAtEnd (S.seen source.new).left) }
        ensures more { OnOk result (self.old.read < longest_script) }
        ensures cause { HasReadCause result self.new.read (S.seen source.old).calls (S.seen source.new).calls }
        ensures memory { IfErr result (λ fault. fault ≢ LineFault.OutOfMemory) }
        ensures limit { IsWithin self.new.read self.new.ended }
    {
        if self.read == LONGEST_SCRIPT {
            return Err(LineFault::Spent);
        }
        let count = self.end - self.start;
        let stop = LONGEST_PIECE.min(count + (LONGEST_SCRIPT - self.read) as usize);
        let filled = refill(source, &mut self.buffer, self.start, self.end, stop);
        self.start = 0;
        self.end = count;
        self.line_start = 0;
        self.line_end = 0;
        match filled {
            Ok(more) => {
                self.end += more;
                self.read += more as u64;
                Ok(more)
            }
            Err(_) => Err(LineFault::ReadFault),
        }
    }

    // Takes the last line, whose bytes are all that waits, at the end of the source.
    fn take_last(&mut self) -> Got
        requires none { HasNoNewline self.old.waiting }
        requires limit { self.old.read < longest_script }
        ensures line { TakesLine (line_got result self.new.line) true self.old.waiting self.new.waiting }
        ensures frame { self.new ≡ record self.old { line = self.new.line; waiting = []; ended = true } }
    {
        let all = self.waiting().len();
        let got = if all == 0 {
            Got::End
        } else {
            self.take_line(all, all)
        };
        self.finish();
        got
    }

    // The place of the first newline that waits. No byte is searched twice.
    #[inline(always)]
    pub(crate) fn newline(&mut self) -> Option<usize>
        ensures place { MatchOption result (HasNoNewline self.old.waiting) (λ at. IsNewline self.old.waiting at) }
        ensures same { self.new ≡ self.old }
        ensures going { IfSome result (λ _. self.old.ended ≡ false) }
        ensures within { IfSome result (λ at. at < longest_piece) }
        ensures limit { IsWithin self.old.read self.old.ended }
    {
        let found = newline_behind(self.waiting(), self.searched);
        if found.is_none() {
            self.searched = self.end - self.start;
        }
        found
    }

    // Takes the line of the bytes before `at`, and goes on at `next`, both from the first byte that waits.
    fn take_line(&mut self, at: usize, next: usize) -> Got
        requires order { at ≤ next }
        requires within { next ≤ length self.old.waiting }
        ensures line { line_got result self.new.line ≡ Some (line_item (take at self.old.waiting)) }
        ensures frame { self.new ≡ record self.old { line = self.new.line; waiting = drop next self.old.waiting } }
    {
        let (got, line) = line_of(&self.waiting()[..at]);
        let len = line.len();
        self.take(len, next);
        got
    }

    // Takes the bytes before `at` as the line, and goes on at `next`, both from the first byte that waits.
    pub(crate) fn take(&mut self, at: usize, next: usize)
        requires order { at ≤ next }
        requires within { next ≤ length self.old.waiting }
        ensures { self.new ≡ record self.old { line = take at self.old.waiting; waiting = drop next self.old.waiting } }
    {
        self.line_start = self.start;
        self.line_end = self.start + at;
        self.drop_front(next);
    }

    // Drops the first bytes that wait.
    fn drop_front(&mut self, count: usize)
        requires { count ≤ length self.old.waiting }
        ensures { self.new ≡ record self.old { waiting = drop count self.old.waiting } }
    {
        self.start += count;
        self.searched = 0;
    }

    // Drops all that waits.
    fn drop_waiting(&mut self)
        ensures { self.new ≡ record self.old { waiting = [] } }
    {
        self.start = self.end;
        self.searched = 0;
    }

    // The source has given its end.
    fn finish(&mut self)
        requires { self.old.read < longest_script }
        ensures { self.new ≡ record self.old { waiting = []; ended = true } }
    {
        self.drop_waiting();
        self.ended = true;
    }

    // The bytes that wait, and what holds of every reader.
    pub(crate) fn waiting(&self) -> &[u8]
        ensures value { result.now ≡ self.now.waiting }
        ensures piece { length result.now ≤ longest_piece }
        ensures at_end { self.now.ended ≡ true → result.now ≡ [] }
        ensures limit { IsWithin self.now.read self.now.ended }
    {
        &self.buffer[self.start..self.end]
    }
}

#[cfg(test)]
impl Lines {
    // A reader that has read so many bytes, of which none waits.
    pub(crate) fn behind(alloc: Global, read: u64) -> Result<Lines, OutOfMemory>
        requires { read ≤ longest_script }
    {
        let mut lines = Lines::new(alloc)?;
        lines.read = read;
        Ok(lines)
    }
}
