/// A unit of work that is counted.
#[derive(Clone, Copy, Debug, PartialEq, Eq)]
pub enum Work {
    /// A pattern is matched against a record.
    Match,
    /// A probe is evaluated.
    Eval,
}
