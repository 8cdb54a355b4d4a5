use torn_block::DISKS;

/// A host over all epochs, as C is shown it. Places are slots of all epochs, counted through.
#[repr(C)]
#[derive(Clone, Copy, Drop)]
pub struct EpochsView {
    pub cluster: u64,
    /// The epoch where the host is, 0 where it is in none.
    pub epoch: u64,
    /// How many commands of that epoch are learned, so that as many of its slots are taken.
    pub taken: u64,
    /// All places below this one are learned, 0 where the lock table is not known.
    pub learned: u64,
    pub host: u32,
    pub disks: u32,
    /// How many slots an epoch has.
    pub slots: u32,
    /// 1 where the host is in an epoch, else 0.
    pub is_in_epoch: u32,
    /// 1 where the lock table is known, else 0.
    pub has_table: u32,
    /// 1 of each disk that takes no part yet in the epoch where the host is, else 0.
    pub away: [u32; DISKS as usize],
}
