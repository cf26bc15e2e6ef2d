use crate::Work;

/// What is told of each unit of work that [`Steps`](crate::Steps) counts, such as a test's list of them.
/// No clause speaks of it.
pub trait Ledger: Drop {
    /// Takes note of one unit of work.
    fn tick(&mut self, work: Work);
}
