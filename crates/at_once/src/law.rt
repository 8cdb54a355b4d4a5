// What hosts over the same images make together, if each of their device calls takes effect at one moment.
ghost use Rattle.at_once.specs.AtOnce.{AtOnceMakesARun, AfterMigrationMakesARun, RunsAreAtOnce};
ghost use Rattle.at_once.specs.Deeds.{Looks, Marks, Operates, Starts};
ghost use Rattle.at_once.specs.Disks.{EachGave, GivingServes, SimulatedSteps};
ghost use Rattle.at_once.specs.Images.{LaidOutHoldsNothing, MigratedHoldsLog};
ghost use Rattle.at_once.specs.InTurn.{TurnsAgree};
ghost use Rattle.at_once.specs.Joined.{DeedsAreJoined};
ghost use Rattle.at_once.specs.Power.{LossesAreCrashes, LossesAreJoined, LossesAfterMigrationAreCrashes, LossesAfterMigrationAreJoined};

use disk::Disk;

/// If each host, by itself, does what a host may do, and each image, by itself, serves what is done to it, then all of it in one
/// order is a run of the world. So it has one log, and what hosts acknowledge and recover agrees with that log.
///
/// An image has a header, and may be longer than its slots need.
pub fn calls_made_at_once_make_a_run()
    ensures makes { AtOnceMakesARun }
    // So it is over images that a migration of a log left.
    ensures migrated { AfterMigrationMakesARun }
    // And no run is left out that begins on zeros.
    ensures all { RunsAreAtOnce }
    // An image that was laid out holds nothing at first.
    ensures blank { LaidOutHoldsNothing }
    // A complete image of a migration holds its log.
    ensures held { MigratedHoldsLog }
{}

/// What a host does by its operations, markings and looks over disks is what it may do; and what it keeps is what it then knows.
pub fn operations_are_deeds<D: Disk>()
    ensures starts { Starts }
    ensures operates { Operates D.gives }
    ensures marks { Marks D.gives }
    ensures looks { Looks D.gives }
{}

/// Each disk of a host, by itself, gave the answers to the calls on it. If it made a step of the disk model with each answer, it has
/// served the calls.
pub fn disks_serve_alone<D: Disk>()
    ensures each { EachGave D.gives }
    ensures serves { GivingServes D.gives D.state }
    ensures simulated { SimulatedSteps }
{}

/// What hosts have learned and acknowledged, each by its own operations, agrees with the one log of all that they did at once.
pub fn deeds_join_one_log()
    ensures { DeedsAreJoined }
{}

/// The same holds over losses of power. Each stops all hosts, and keeps of each image what was synced. An image has the same boot
/// number after it as before.
pub fn losses_of_power_are_crashes()
    ensures crashes { LossesAreCrashes }
    ensures joins { LossesAreJoined }
    // So it is over images that a migration of a log left.
    ensures migrated_crashes { LossesAfterMigrationAreCrashes }
    ensures migrated_joins { LossesAfterMigrationAreJoined }
{}

/// All of that for two hosts that work in turn over the same simulated disks: no two commands are acknowledged at one slot.
pub fn hosts_in_turn_agree()
    ensures { TurnsAgree }
{}
