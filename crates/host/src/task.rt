use lock_command::Command;

/// What an idle host may be given to do.
#[derive(Clone, Copy, Debug)]
pub enum Task {
    /// To put a command into the log. Up to `tries` attempts may be outrun, the last of which ends the task.
    Submit { command: Command, tries: u8 },
    /// To learn all that is in the log. Up to `tries` attempts may be outrun, the last of which ends the task.
    Recover { tries: u8 },
    /// To learn the commands that marks tell, slot by slot, up to the first slot of which more than half of the disks show a sound row without
    /// a mark. Each slot's row is read first on the disk that told the last command, and the first slot's on disk 0. A look syncs and writes
    /// nothing, and outruns nobody; but what was acknowledged and not marked is not found.
    Look,
    /// To beat: this host's heartbeat blocks get their next sequence numbers, and the counters of all hosts are read.
    Beat,
    /// To mark a slot: on each disk this host's block of the slot, where it holds what was learned, is written anew with a mark, by which
    /// others learn it in one reading. A slot that is not learned is refused at once.
    Mark { slot: u16 },
}
