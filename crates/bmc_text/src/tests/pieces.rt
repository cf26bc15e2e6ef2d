use bmc_base::Calls;
use bmc_io::{IoFault, Source};
use std::alloc::Global;
use std::test::Fail;

// Gives its bytes in pieces of at most `size`. The call with the number `fails` fails. `next` is the number
// of the next call.
#[derive(Drop)]
pub(crate) struct Pieces<'a> {
    left: &'a [u8],
    size: usize,
    fails: u64,
    pub(crate) next: u64,
    calls: Calls,
}

impl Pieces<'_> {
    pub(crate) fn new(bytes: &[u8], size: usize, fails: u64) -> Pieces<'_> {
        Pieces {
            left: bytes,
            size,
            fails,
            next: 0,
            calls: Calls::new(),
        }
    }
}

impl Source for Pieces<'_> {
    ghost use Rattle.std.specs.Prelude.{None};

    ghost seen = { λ source. record { left = None; calls = source.calls } };

    fn read(&mut self, buf: &mut [u8]) -> Result<usize, IoFault> {
        let fails = self.next == self.fails;
        self.next = self.next.saturating_add(1);
        if fails {
            self.calls.add_failure();
            return Err(IoFault);
        }
        self.calls.add_success();
        let count = self.size.min(buf.len()).min(self.left.len());
        let (piece, left) = self.left.split_at(count);
        buf[..count].copy_from_slice(piece);
        self.left = left;
        Ok(count)
    }
}

// So many letters, and then a text.
pub(crate) fn letters(alloc: Global, count: usize, text: &[u8]) -> Result<Vec<u8>, Fail> {
    let mut bytes = vec![in alloc; b'a'; count]?;
    bytes.extend_from_slice(text)?;
    Ok(bytes)
}
