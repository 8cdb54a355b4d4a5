// What hosts of all epochs do, over disks that serve them.
ghost use Rattle.epoch_runs.specs.Laws.{DeedsAreShared, DeedsAreSharedOverLosses, HostsHaveOneLog, HostsHaveOneLogOverLosses, HostsKeepToEpochs, HostsKeepToEpochsOverLosses, KeptDeedsHaveOneLog, KeptDeedsHaveOneLogOverLosses, OrderIsKept, TasksAreTheSame};
ghost use Rattle.epoch_runs.specs.Replacing.{FreshDisksMayBeReplaced, NobodyGetsAhead, NobodyGetsAheadOverLosses};
ghost use Rattle.epoch_runs.specs.World.{model_crashes, power_losses};

/// Hosts of all epochs do what they may, each by what it did since its start, and disks serve their calls. Then each disk has served all
/// that is done there, in whatever epoch, and of each epoch what is lived is of hosts that do what they may.
pub fn deeds_are_shared()
    ensures shared { DeedsAreShared }
    // So it is over losses of power, each of which finds every host stopped.
    ensures power { DeedsAreSharedOverLosses }
    // So all of it is one log without an end, where hosts keep to the epochs.
    ensures one_log { KeptDeedsHaveOneLog }
    ensures one_log_on { KeptDeedsHaveOneLogOverLosses }
    // What `epoch_deeds` lets a host be given is what the world lets it be given.
    ensures tasks { TasksAreTheSame }
{}

/// What is lived is lived in the order in which it is done, and each core is then what the deeds of its host make of it.
pub fn order_is_kept()
    ensures model { OrderIsKept model_crashes }
    // So it is over losses of power.
    ensures power { OrderIsKept power_losses }
{}

/// Hosts of all epochs do what they may, each by what it did since its start, over disks that serve their calls: all of it is one log without an end.
pub fn hosts_have_one_log()
    // They keep to the epochs: each comes to one when that before it is whole, and carries its table over first.
    ensures keeps { HostsKeepToEpochs }
    ensures one_log { HostsHaveOneLog }
    // So it is over losses of power, each of which finds every host stopped.
    ensures keeps_on { HostsKeepToEpochsOverLosses }
    ensures one_log_on { HostsHaveOneLogOverLosses }
{}

/// Another disk may be put in the place of a lost one, and takes part from two epochs above on: where half of the disks, each of which takes part in the next epoch,
/// show no number above this one, no core has called any disk in an epoch above the next one.
pub fn nobody_gets_ahead()
    ensures model { NobodyGetsAhead }
    // So it is over losses of power.
    ensures power { NobodyGetsAheadOverLosses }
    // At first each disk may be replaced from epoch 2 on, so this is not said of nothing.
    ensures fresh { FreshDisksMayBeReplaced }
{}
