use crate::BoardKeys;

/// What changes from one moment to the next.
#[derive(Drop)]
pub struct Difference {
    /// The boards that go.
    pub gone_boards: BoardKeys,
    /// The boards that come.
    pub new_boards: BoardKeys,
}
