// What the logs of epochs, one after another, are together.
ghost use Rattle.endless.specs.Epochs.{CarriedComesFirst, TablesGoOn, EpochsGoOn};
ghost use Rattle.endless.specs.Headline.{EndlessHeadline, EndlessLogsAreOne, LongEpochsHaveRoom};
ghost use Rattle.endless.specs.Lived.{RecoveriesAreOfTheLast};
ghost use Rattle.endless.specs.WithoutEnd.{OneLogWithoutEnd, SharedHaveOneLog, SharedOverLossesHaveOneLog};

/// One log without an end. Where nobody tries one of the first slots of an epoch but with the command that carries the last table over there, the epoch's log
/// begins with these commands. So each table shows what all that was submitted up to then leaves, in whatever epochs, and each reply is
/// the one that it would be given there.
pub fn epochs_go_on()
    ensures first { CarriedComesFirst }
    ensures tables { TablesGoOn }
    ensures all { EpochsGoOn }
{}

/// A recovery that answers with less than a whole epoch is of the last one.
pub fn recoveries_are_of_the_last()
    ensures { RecoveriesAreOfTheLast }
{}

/// Hosts share disks, and renew the log by its own commands, epoch after epoch. All that was submitted, in whatever epoch, is one log: each table shows what it leaves, and
/// each reply goes by it.
pub fn one_log_without_end()
    ensures { OneLogWithoutEnd }
{}

/// One log without an end, and nothing that was acknowledged is lost: so it is with all that is done in all epochs, where hosts keep to
/// them.
pub fn endless_headline()
    ensures headline { EndlessHeadline }
    ensures no_other { EndlessLogsAreOne }
    // What carries a table over has room in an epoch of 288 slots.
    ensures room { LongEpochsHaveRoom }
    // So it is over shared disks, with the bytes that faults left overlooked.
    ensures shared { SharedHaveOneLog }
    // And over losses of power, each of which stops all hosts.
    ensures power { SharedOverLossesHaveOneLog }
{}
