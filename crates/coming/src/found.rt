use rounds::beats::PLACES;
use torn_block::HOSTS;

/// The numbers of the hosts that a disk's rows of standings say, of the first area and of the second.
pub type Standings = [[u64; HOSTS]; 2];

/// What was read, by the disks' numbers. None for a disk that failed or showed damage, or that was not asked.
pub type Readings = [Option<Standings>; PLACES];

/// How a search of the disks ended.
#[derive(Clone, Copy, Debug, PartialEq, Eq)]
pub enum Found {
    /// The newest epoch to which a number belongs that was read, by its place in the order of all epochs. So many disks answered, a majority.
    Newest { order: u64, disks: u8 },
    /// No majority of the disks answered.
    TooFew,
}
