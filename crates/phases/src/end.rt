/// How an attempt ends.
#[derive(Clone, Copy, Debug, PartialEq, Eq)]
pub enum End<V> {
    /// This value is chosen for the slot.
    Committed(V),
    /// A marked block says that this value is chosen for the slot.
    Decided(V),
    /// No input was found, and the attempt has none. Nothing had been chosen for the slot when it began.
    Empty,
    /// Another host has this ballot, which is greater.
    Outrun(u64),
    /// Fewer than a majority of the disks are left.
    NoMajority,
    /// The host has no greater ballot.
    BallotsSpent,
}
