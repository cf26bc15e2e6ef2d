ghost use Rattle.std.specs.Prelude.{◌≡◌, ◌≤◌, ◌<◌, ◌-◌, ◌+◌, ◌++◌, [], List, ℕ, length, IfOk, OnErr, vec_len, vec_capacity};
ghost use Rattle.bmc_text.specs.Items.{longest_block, last_block};
ghost use Rattle.bmc_text.specs.Blocks.{Part, HoldsFront, item_of_block};

use bmc_base::{Bytes, OutOfMemory};
use std::alloc::Global;
use std::marker::Model;

/// The most bytes of a block.
const LONGEST_BLOCK: usize = 262_144;

/// A block of a script.
#[derive(Drop)]
pub enum Block {
    /// Its bytes.
    Given(Bytes),
    /// It has more than 262,144 bytes, which were dropped.
    Long,
    /// The source ended before it.
    Short,
}

// A block that is read: its size, how many of its bytes are still wanted, and those that came. Of one that
// is too long it holds none.
#[derive(Drop)]
pub(crate) struct BlockPart {
    size: usize,
    wanted: usize,
    bytes: Vec<u8>,
}

impl Model for BlockPart {
    ghost use Rattle.std.specs.Prelude.{◌≡◌, ◌≤◌, ◌+◌, vec_len, vec_capacity};
    ghost use Rattle.bmc_text.specs.Items.{longest_block};
    ghost use Rattle.bmc_text.specs.Blocks.{Part};

    ghost Value = { Part };

    ghost view = { λ p. record { size = p.size; wanted = p.wanted; bytes = p.bytes.items } };

    ghost invariant = { λ p. (p.wanted ≤ p.size) × (p.size ≤ longest_block → (vec_len p.bytes + p.wanted ≡ p.size) × (p.size ≤ vec_capacity p.bytes)) };
}

// Appends within the capacity, which takes no memory.
fn push_within(bytes: &mut Vec<u8>, piece: &[u8])
    requires { vec_len bytes.old + length piece.now ≤ vec_capacity bytes.old }
    ensures items { bytes.new.items ≡ bytes.old.items ++ piece.now }
    ensures capacity { vec_capacity bytes.old ≤ vec_capacity bytes.new }
{
    bytes.extend_from_slice(piece).unwrap();
}

impl BlockPart {
    // A block of `size` bytes, of which none came. It takes room for them, but none where they are too many.
    pub(crate) fn new(alloc: Global, size: usize) -> Result<BlockPart, OutOfMemory>
        ensures part { IfOk result (λ part. part ≡ record { size = size; wanted = size; bytes = [] }) }
        ensures room { OnErr result (size ≤ longest_block) }
    {
        let bytes = if size > LONGEST_BLOCK {
            Vec::new(alloc)
        } else {
            Vec::with_capacity(alloc, size)?
        };
        Ok(BlockPart {
            size,
            wanted: size,
            bytes,
        })
    }

    // How many of its bytes are still wanted.
    pub(crate) fn wanted(&self) -> usize
        ensures { result ≡ self.now.wanted }
    {
        self.wanted
    }

    // Takes the next bytes of the block.
    pub(crate) fn push(&mut self, piece: &[u8])
        requires { length piece.now ≤ self.old.wanted }
        ensures part { self.new ≡ record self.old { wanted = self.old.wanted - length piece.now; bytes = self.new.bytes } }
        ensures bytes { self.old.size ≤ longest_block → self.new.bytes ≡ self.old.bytes ++ piece.now }
    {
        if self.size <= LONGEST_BLOCK {
            push_within(&mut self.bytes, piece);
        }
        self.wanted -= piece.len();
    }

    // The block, of which no more bytes come.
    pub(crate) fn finish(self) -> Block
        ensures { item_of_block result ≡ last_block self.size self.bytes }
    {
        if self.size > LONGEST_BLOCK {
            Block::Long
        } else if self.wanted > 0 {
            Block::Short
        } else {
            Block::Given(Bytes::from(self.bytes))
        }
    }
}
