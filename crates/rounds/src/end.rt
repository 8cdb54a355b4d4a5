/// How a round ended.
#[derive(Clone, Copy, Debug, PartialEq, Eq)]
pub enum End {
    /// All disks that are left were visited, and they are a majority. On so many of them the own block is as it is to be.
    Over { held: u8 },
    /// No majority of the disks is left.
    NoMajority,
}
