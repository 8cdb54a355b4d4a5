use paxos_block::Value;

/// How a look at a slot ended.
#[derive(Clone, Copy, Debug, PartialEq, Eq)]
pub enum End {
    /// A marked block on this disk tells the slot's value.
    Decided { disk: u8, value: Value },
    /// More than half of the disks have shown a sound row in which no block is marked.
    Unmarked,
    /// Half of the disks, or more, have failed or shown a damaged row, and no mark was seen.
    NoMajority,
}
