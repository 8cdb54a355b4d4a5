/// How it ended on a disk.
#[derive(Clone, Copy, Debug, PartialEq, Eq)]
pub enum End {
    /// The host's number there is surely the epoch's, and nobody has a greater one.
    Come,
    /// Somebody has left the epoch.
    Passed,
    /// A call failed, or the row of standings is damaged, or the host's block in it has no sequence number left.
    Failed,
}
