// What hosts of all epochs over the same disks make together, if each of their device calls takes effect at one moment.
ghost use Rattle.at_once.specs.Power.{LosesPower};
ghost use Rattle.epochs.specs.Acts.{IsModelCrash};
ghost use Rattle.epochs_at_once.specs.AtOnce.{AtOnceGoes, GoesAtOnce, GoesOverLosses, OverLossesGoes};
ghost use Rattle.epochs_at_once.specs.Disks.{GivingServes};
ghost use Rattle.epochs_at_once.specs.Images.{ImagesAreAtOnce, ImagesAreOverLosses, ImagesHaveOneLog, ImagesHaveOneLogOverLosses, LaidOutIsBlank};
ghost use Rattle.epoch_host.specs.Ending.{AreIdleBy, AreSilentBy};
ghost use Rattle.epochs_at_once.specs.Joined.{HostsHaveOneLog, HostsHaveOneLogOverLosses, TasksRecover};
ghost use Rattle.epochs_at_once.specs.Tasks.{Starts, StopsLast, StopsMidway, Works};
ghost use Rattle.paxos_block.specs.Shape.{Shape};
ghost use Rattle.std.specs.Prelude.{[], ℕ};

use disk::Disk;

/// If each host, by itself, does what a host may do, and each disk, by itself, serves what is done to it, then all of it in one order is
/// what hosts of all epochs do over shared disks.
pub fn calls_made_at_once_go()
    ensures goes { AtOnceGoes }
    // And nothing of what they do is left out.
    ensures all { GoesAtOnce }
    // So it is over losses of power, each of which finds every host stopped.
    ensures power { OverLossesGoes }
    ensures all_power { GoesOverLosses }
{}

/// What a host does by its tasks over disks is what it may do by itself; and what it keeps is what that leads to.
pub fn tasks_are_deeds<D: Disk>()
    ensures starts { Starts }
    ensures works { Works D.gives }
    // It may stop anywhere, in the midst of a task, too.
    ensures stops { StopsMidway }
    ensures stops_last { StopsLast }
{}

/// A disk of a host that makes a step of the disk model with each answer has served the calls on it. That each of a host's disks gave its
/// part by itself is proved in `at_once`.
pub fn disks_serve_deeds<D: Disk>()
    ensures model { GivingServes IsModelCrash D.gives D.state }
    // So it is where disks lose power.
    ensures power { GivingServes LosesPower D.gives D.state }
{}

/// All that such hosts acknowledge, recover and show goes by one log without an end.
pub fn hosts_at_once_have_one_log()
    ensures one_log { HostsHaveOneLog }
    // So it is over losses of power.
    ensures one_log_on { HostsHaveOneLogOverLosses }
    // A host that has just started is idle and silent, so its recovery is later than all that was acknowledged before.
    ensures fresh { (c : Shape) (h : ℕ) → AreIdleBy c h [] × AreSilentBy c h [] }
    // A host that had been open before is idle as its recovery's task begins, and silent once after that; so this recovery is later, too.
    ensures recovers { TasksRecover }
{}

/// Disks may begin as images that a format laid out, which have a header. What is done to images behind their headers is done at once to disks of
/// zeros: to the parts of them that hosts use.
pub fn images_are_disks_behind_headers()
    ensures at_once { ImagesAreAtOnce }
    // So it is over losses of power.
    ensures power { ImagesAreOverLosses }
    // So all that hosts tell over them goes by one log.
    ensures one_log { ImagesHaveOneLog }
    ensures one_log_on { ImagesHaveOneLogOverLosses }
    // An image that was laid out is blank.
    ensures blank { LaidOutIsBlank }
{}
