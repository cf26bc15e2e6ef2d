ghost use Rattle.std.specs.Prelude.{◌≡◌};
ghost use Rattle.bmc_text.specs.Words.{block_size};

use crate::numbers::read_number;

/// The size in bytes of the block that a line asks for, which has the form `config N`, or none where it
/// asks for none. Most lines ask for none, and their first byte tells.
#[inline]
#[tactic(auto, using(crate::proofs::WordsLemmas::asks_none))]
pub fn block_size(line: &[u8]) -> Option<u32>
    ensures { result ≡ block_size line.now }
{
    if line.first() != Some(&b'c') {
        return None;
    }
    size_in_words(line)
}

// The same, by all bytes of the line.
#[inline(never)]
fn size_in_words(line: &[u8]) -> Option<u32>
    ensures { result ≡ block_size line.now }
{
    match line.strip_prefix(b"config ") {
        Some(digits) => read_number(digits),
        None => None,
    }
}
