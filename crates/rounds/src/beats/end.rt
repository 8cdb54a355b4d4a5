/// How a beat ended.
#[derive(Clone, Copy, Debug, PartialEq, Eq)]
pub enum End {
    /// All disks that are left were visited, and they are a majority.
    Beaten,
    /// No majority of the disks is left.
    NoMajority,
}
