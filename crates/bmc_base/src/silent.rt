use crate::{Ledger, Work};

/// A ledger that keeps nothing.
#[derive(Clone, Copy, Debug, PartialEq, Eq)]
pub struct Silent;

impl Ledger for Silent {
    fn tick(&mut self, _work: Work) {}
}
