use attempt::Refusal;

/// How an operation ended.
#[derive(Clone, Copy, Debug, PartialEq, Eq)]
pub enum LogOutcome {
    /// The value was learned at this slot.
    Placed { slot: u16 },
    /// So many slots are learned, and nothing had been chosen for the next one when its attempt began.
    Recovered { length: u16 },
    Refused(Refusal),
}
