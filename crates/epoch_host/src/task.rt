use lock_command::Command;

/// What an idle host may be given to do. Places are slots of all epochs, counted through.
#[derive(Clone, Copy, Debug)]
pub enum EpochTask {
    /// To put a command into the log. Up to `tries` attempts may be outrun, the last of which ends the task.
    Submit { command: Command, tries: u8 },
    /// To learn all that is in the log. Up to `tries` attempts may be outrun, the last of which ends the task.
    Recover { tries: u8 },
    /// To learn the commands that marks tell, up to the first slot where more than half of the disks show none. Once the table of the epoch is there a look
    /// syncs and writes nothing; but what was acknowledged and not marked is not found.
    Look,
    /// To beat in the epoch that this host knows as the newest one.
    Beat,
    /// To mark a place. One that this host has not learned in the epoch where it is, is refused at once.
    Mark { place: u64 },
}
