/// What happens to a migration over simulated disks. An event that does not apply changes nothing.
#[derive(Debug, Drop)]
pub enum MigrationEvent {
    /// The call that is due is made, and does not fail.
    Step,
    /// The program stops within the call that is due, if that is a write: its range takes the given bytes.
    Tear { given: Vec<u8> },
    /// The call that is due fails; the range of a write takes the given bytes.
    FailCall { given: Vec<u8> },
    /// A disk crashes, and its unsynced positions take the given bytes.
    DiskCrash { disk: u8, given: Vec<u8> },
    /// A disk is lost for good.
    DiskGone(u8),
}
