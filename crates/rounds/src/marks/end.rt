/// How a marking ended.
#[derive(Clone, Copy, Debug, PartialEq, Eq)]
pub enum End {
    /// All disks that are left were visited, and they are a majority. On so many of them the own block is marked.
    Marked { count: u8 },
    /// No majority of the disks is left.
    NoMajority,
}
