use thiserror::Error;

/// A row has a damaged block: some open copy of it is not sound, or both are open with one sequence
/// number.
#[derive(Clone, Copy, Debug, PartialEq, Eq, Error)]
#[error("a block of the row is damaged")]
pub struct Damaged;
