ghost use Rattle.std.specs.Prelude.{◌≡◌, ◌<◌, [], true, false, Ok, Some, None, IfOk, OnOk, OnErr, IfErr, IfSome, IfNone, MatchResult, option_and_then, codes};
ghost use Rattle.std.specs.Prelude.{◌∷◌};
ghost use Rattle.std.specs.Io.KnownBytes.{Keeps, IsAtEnd};
ghost use Rattle.bmc_io.specs.Sources.{Input};
ghost use Rattle.bmc_text.specs.Items as items;
ghost use Rattle.bmc_text.specs.Items.{asks, items_of, whole_items, unfinished};
ghost use Rattle.bmc_text.specs.Feeds.{ItemFeed, IsWithin, Reads};
ghost use Rattle.bmc_text.specs.Faults.{HasReadCause};
ghost use Rattle.bmc_text.specs.Lines.{line_got};
ghost use Rattle.bmc_text.specs.Blocks.{item_of_block};
ghost use Rattle.bmc_text.specs.NextItems.{item_next, TakesNextItem, LacksItem, WantsMemory};

use crate::block::{Block, BlockPart};
use crate::buffer::line_of;
use crate::lines::{Got, LineFault, Lines};
use crate::words::block_size;
use bmc_base::{Bytes, OutOfMemory};
use bmc_io::Source;
use std::alloc::Global;
use std::marker::Model;

/// What comes next of a script.
#[derive(Clone, Copy, Debug, PartialEq, Eq)]
pub enum NextItem {
    /// A line that asks for no block, which `Items::line` reads.
    Line,
    /// A line of more than 9,000 bytes, which was dropped.
    LineTooLong,
    /// A block, which `Items::block` reads, with the line that asked for it.
    Block,
    /// A block of more than 262,144 bytes, which was dropped, with its line.
    BlockTooLong,
    /// A block that the end of the script cut short, with its line.
    BlockShort,
    /// The end of the script.
    End,
}

// What comes of a line that asks for no block.
#[inline]
fn next_of(got: Got) -> NextItem
    ensures item { (feed : ItemFeed) → item_next result feed ≡ line_got got feed.line }
    ensures at_end { got ≡ Got.End → result ≡ NextItem.End }
{
    match got {
        Got::Line => NextItem::Line,
        Got::LineTooLong => NextItem::LineTooLong,
        Got::End => NextItem::End,
    }
}

// The size of the block that a line asks for.
#[inline]
fn asked(got: Got, line: &[u8]) -> Option<u32>
    ensures { result ≡ option_and_then asks (line_got got line.now) }
{
    match got {
        Got::Line => block_size(line),
        Got::LineTooLong | Got::End => None,
    }
}

/// The items of a source: its lines, each with the block that it asks for.
#[derive(Drop)]
pub struct Items {
    lines: Lines,
    block: Bytes,
}

impl Model for Items {
    ghost Value = { ItemFeed };

    ghost view = { λ i. record { line = i.lines.line; block = i.block; waiting = i.lines.waiting; read = i.lines.read; ended = i.lines.ended } };
}

impl Items {
    /// A reader that has read nothing. It takes its buffer here, once.
    pub fn new(alloc: Global) -> Result<Items, OutOfMemory>
        ensures { IfOk result (λ items. items ≡ record { line = []; block = []; waiting = []; read = 0; ended = false }) }
    {
        let lines = Lines::new(alloc)?;
        let block = Bytes::copy(alloc, &[])?;
        Ok(Items { lines, block })
    }

    /// The line that was taken last, without the carriage return at its end.
    pub fn line(&self) -> &[u8]
        ensures { result.now ≡ self.now.line }
    {
        self.lines.line()
    }

    /// The block that was taken last.
    pub fn block(&self) -> &[u8]
        ensures { result.now ≡ self.now.block }
    {
        self.block.as_slice()
    }

    /// Whether the source has given its end and nothing waits any more.
    pub fn is_ended(&self) -> bool
        ensures { result ≡ self.now.ended }
    {
        self.lines.is_ended()
    }

    /// Takes the next item among the bytes that wait, or returns none where no item is whole in them. Then,
    /// and where there is no memory for its block, nothing changes.
    #[inline(always)]
    pub fn next_buffered(&mut self, alloc: Global) -> Result<Option<NextItem>, OutOfMemory>
        ensures next { IfOk result (λ found. IfSome found (λ next. (input : Input) → TakesNextItem next self.old self.new input input)) }
        ensures none { IfOk result (λ found. IfNone found (whole_items self.old.waiting ≡ [])) }
        ensures memory { OnErr result (WantsMemory self.old.waiting) }
        ensures same { MatchResult result (λ found. IfNone found (self.new ≡ self.old)) (λ _. self.new ≡ self.old) }
        ensures frame { self.new ≡ record self.old { line = self.new.line; block = self.new.block; waiting = self.new.waiting } }
        ensures limit { IsWithin self.new.read self.new.ended }
        ensures after_end { self.old.ended ≡ true → result ≡ Ok None }
    {
        let Some(at) = self.lines.newline() else {
            return Ok(None);
        };
        let (got, line) = line_of(&self.lines.waiting()[..at]);
        let len = line.len();
        let Some(size) = asked(got, line) else {
            self.lines.take(len, at + 1);
            return Ok(Some(next_of(got)));
        };
        let size = size as usize;
        if self.lines.waiting().len() - (at + 1) <= size {
            return Ok(None);
        }
        let part = BlockPart::new(alloc, size)?;
        self.lines.take(len, at + 1);
        let block = self.lines.take_block(part);
        Ok(Some(self.keep(block)))
    }

    /// Takes the next item of the source. It reads only while no item is whole in what waits, and not again
    /// once the source has given its end. It is not called again after a fault.
    pub fn next<S: Source>(&mut self, alloc: Global, source: &mut S) -> Result<NextItem, LineFault>
        ensures next { IfOk result (λ next. TakesNextItem next self.old self.new (S.seen source.old) (S.seen source.new)) }
        ensures at_end { OnOk result ((self.old.ended ≡ true → IsAtEnd (S.seen source.old).left) → self.new.ended ≡ true → IsAtEnd (S.seen source.new).left) }
        ensures lacks { IfErr result (λ fault. Reads self.old.waiting self.old.read self.new.read (S.seen source.old) (S.seen source.new) (LacksItem fault)) }
        ensures cause { HasReadCause result self.new.read (S.seen source.old).calls (S.seen source.new).calls }
        ensures limit { IsWithin self.new.read self.new.ended }
        ensures waits { (whole_items self.old.waiting ≡ [] → ⊥) → self.new.read ≡ self.old.read }
        ensures after_end { self.old.ended ≡ true
            → (result ≡ Ok NextItem.End) × (self.new ≡ self.old) × Keeps (S.seen source.old).left (S.seen source.new).left }
    {
        let got = self.lines.next(source)?;
        match asked(got, self.lines.line()) {
            None => Ok(next_of(got)),
            Some(size) => {
                let block = self.lines.block(alloc, source, size)?;
                Ok(self.keep(block))
            }
        }
    }

    // Keeps a block, and answers what came.
    fn keep(&mut self, block: Block) -> NextItem
        ensures item { item_next result self.new ≡ Some (item_of_block block) }
        ensures frame { self.new ≡ record self.old { block = self.new.block } }
    {
        match block {
            Block::Given(bytes) => {
                self.block = bytes;
                NextItem::Block
            }
            Block::Long => NextItem::BlockTooLong,
            Block::Short => NextItem::BlockShort,
        }
    }
}

/// The items of some scripts, computed from the definitions: a comment; carriage returns, of which one is
/// removed; a block with a newline inside and one behind it; blocks that the end cuts short or ends; a block
/// that is too long by its size; sizes of nine digits and of ten; and what is whole before the end is known.
pub fn item_examples()
    ensures comment { items_of (codes "# a comment\n") ≡ items.Line (codes "# a comment") ∷ [] }
    ensures carriage_return { items_of (codes "a\r\nb\r\r") ≡ items.Line (codes "a") ∷ items.Line (codes "b\r") ∷ [] }
    ensures block { items_of (codes "config 5\nab\ncd\nb\n") ≡ items.Block (codes "ab\ncd") ∷ items.Line (codes "b") ∷ [] }
    ensures short { items_of (codes "config 5\nabcd") ≡ items.BlockShort ∷ [] }
    ensures last { items_of (codes "config 5\nabcde") ≡ items.Block (codes "abcde") ∷ [] }
    ensures long { items_of (codes "config 262145\nabcde") ≡ items.BlockTooLong ∷ [] }
    ensures leading_zeros { items_of (codes "config 000000005\nabcde") ≡ items.Block (codes "abcde") ∷ [] }
    ensures ten_digits { items_of (codes "config 0000000005\na") ≡ items.Line (codes "config 0000000005") ∷ items.Line (codes "a") ∷ [] }
    ensures whole { whole_items (codes "a\nconfig 5\nabcde") ≡ items.Line (codes "a") ∷ [] }
    ensures unfinished { unfinished (codes "a\nconfig 5\nabcde") ≡ codes "config 5\nabcde" }
{}
