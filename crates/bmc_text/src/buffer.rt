ghost use Rattle.std.specs.Prelude.{◌≡◌, ◌<◌, ◌≤◌, ◌+◌, ◌-◌, length, take, slice_range, Some, IfOk, OnErr, MatchOption};
ghost use Rattle.std.specs.Io.KnownBytes.{Keeps, Consumes, IsAtEnd};
ghost use Rattle.bmc_base.specs.Calls.{HasCause};
ghost use Rattle.bmc_text.specs.Feeds.{Reads};
ghost use Rattle.bmc_text.specs.Items.{line_item};
ghost use Rattle.bmc_text.specs.Lines.{line_got};
ghost use Rattle.bmc_text.specs.Newlines.{HasNoNewline, IsNewline};

use crate::lines::Got;
use bmc_io::{IoFault, Source};
use memchr::memchr;

/// The most bytes that a line has before its newline.
pub(crate) const LONGEST_LINE: usize = 9000;

// The place of the first newline, where none stands before `from`.
#[inline(always)]
pub(crate) fn newline_behind(bytes: &[u8], from: usize) -> Option<usize>
    requires within { from ≤ length bytes.now }
    requires none { HasNoNewline (take from bytes.now) }
    ensures { MatchOption result (HasNoNewline bytes.now) (λ at. IsNewline bytes.now at) }
{
    let behind = memchr(b'\n', &bytes[from..])?;
    Some(from + behind)
}

// The line of the bytes before its newline: they are too long, or a line without a carriage return at its
// end.
#[inline]
#[tactic(auto, unfolding(crate::specs::Items::line_item, crate::specs::Items::without_return))]
pub(crate) fn line_of(raw: &[u8]) -> (Got, &[u8])
    ensures item { line_got result.0 result.1.now ≡ Some (line_item raw.now) }
    ensures front { result.1.now ≡ take (length result.1.now) raw.now }
    ensures within { length result.1.now ≤ length raw.now }
{
    if raw.len() > LONGEST_LINE {
        return (Got::LineTooLong, &[]);
    }
    match raw {
        [line @ .., b'\r'] => (Got::Line, line),
        _ => (Got::Line, raw),
    }
}

// Moves the bytes from `start` to `end` to the front.
fn to_front(buffer: &mut [u8], start: usize, end: usize)
    requires order { start ≤ end }
    requires within { end ≤ length buffer.old }
    ensures { take (end - start) buffer.new ≡ slice_range buffer.old start end }
{
    if start > 0 {
        buffer.copy_within(start..end, 0);
    }
}

// Reads a piece into the buffer from `at` on and before `stop`, and answers its length.
fn read_at<S: Source>(
    source: &mut S,
    buffer: &mut [u8],
    at: usize,
    stop: usize,
) -> Result<usize, IoFault>
    requires room { at < stop }
    requires within { stop ≤ length buffer.old }
    ensures within { IfOk result (λ count. at + count ≤ stop) }
    ensures front { take at buffer.new ≡ take at buffer.old }
    ensures bytes { IfOk result (λ count. Consumes (S.seen source.old).left (S.seen source.new).left (slice_range buffer.new at (at + count))) }
    ensures at_end { IfOk result (λ count. count ≡ 0 → IsAtEnd (S.seen source.new).left) }
    ensures left { OnErr result (Keeps (S.seen source.old).left (S.seen source.new).left) }
    ensures cause { HasCause (S.seen source.old).calls (S.seen source.new).calls result }
{
    source.read(&mut buffer[at..stop])
}

// Moves the bytes from `start` to `end` to the front, reads a piece behind them and before `stop`, and
// answers its length.
pub(crate) fn refill<S: Source>(
    source: &mut S,
    buffer: &mut [u8],
    start: usize,
    end: usize,
    stop: usize,
) -> Result<usize, IoFault>
    requires order { start ≤ end }
    requires within { end ≤ length buffer.old }
    requires room { end - start < stop }
    requires stop { stop ≤ length buffer.old }
    ensures within { IfOk result (λ count. end - start + count ≤ stop) }
    ensures front { take (end - start) buffer.new ≡ slice_range buffer.old start end }
    ensures reads { IfOk result (λ count.
        Reads (slice_range buffer.old start end) 0 count (S.seen source.old) (S.seen source.new)
        (λ bytes. bytes ≡ slice_range buffer.new 0 (end - start + count))) }
    ensures at_end { IfOk result (λ count. count ≡ 0 → IsAtEnd (S.seen source.new).left) }
    ensures left { OnErr result (Keeps (S.seen source.old).left (S.seen source.new).left) }
    ensures cause { HasCause (S.seen source.old).calls (S.seen source.new).calls result }
{
    to_front(buffer, start, end);
    let count = read_at(source, buffer, end - start, stop)?;
    Ok(count)
}
