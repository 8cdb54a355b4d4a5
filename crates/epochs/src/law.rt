// Areas of disks that are used again for each epoch: what an area shows, the numbers of hosts, and what hosts of all epochs do.
ghost use Rattle.at_once.specs.Power.{LosesPower};
ghost use Rattle.epochs.specs.Acts.{AreasServe, AreasServeOn, IsModelCrash, ReadingsShow};
ghost use Rattle.epochs.specs.Bytes.{CallsServe, CallsServeOn, ReadBytesShow};
ghost use Rattle.epochs.specs.Laws.{OwnCallsAreSteps, OwnTearsAreTears, OthersLeaveIt, CrashesAreCrashes, LossesAreLosses, StandingsChangeNothing, FreshDisksShowNothing, NobodyShowsNothing};
ghost use Rattle.epochs.specs.Numbers.{ZerosAreNone, OthersLeaveNumbers, SyncsMakeSure, CrashesLeaveOne, WritesAreNext, WritesRaise};
ghost use Rattle.epochs.specs.OneLog.{EpochsAreAtOnce, EpochsAreOverLosses, EpochsAreRuns, PastsAreShared, PastsAreSharedOverLosses};
ghost use Rattle.epochs.specs.Pasts.{HostsMayBegin, PastsAreActs, PastsServe, PastsServeOn};

/// For each epoch an area of a disk shows an image. What hosts of the epoch do is done to that image; what is done for other epochs
/// is not; and it is no matter when a host comes or leaves.
pub fn areas_show_images()
    ensures calls { OwnCallsAreSteps }
    ensures tears { OwnTearsAreTears }
    ensures others { OthersLeaveIt }
    ensures crashes { CrashesAreCrashes }
    ensures losses { LossesAreLosses }
    ensures standings { StandingsChangeNothing }
    ensures fresh { FreshDisksShowNothing }
    ensures nobody { NobodyShowsNothing }
{}

/// A host's number is the counter of its block. It is changed by the six calls that write the block alone, and then it is the next one, at one
/// moment; a sync makes it sure, and a crash leaves what was sure, what was seen, or what was being written.
pub fn numbers_are_bytes()
    ensures zeros { ZerosAreNone }
    ensures others { OthersLeaveNumbers }
    ensures syncs { SyncsMakeSure }
    ensures crashes { CrashesLeaveOne }
    ensures writes { WritesAreNext }
    ensures raises { WritesRaise }
{}

/// Hosts of all epochs make their calls on a disk in any order; some come to an epoch, others have left it, and others died in
/// between. Of each epoch the disk has served what is done to that epoch's image, as an image of zeros would.
pub fn areas_serve()
    ensures serves { AreasServe }
    // So it is with a file, over losses of power.
    ensures power { AreasServeOn }
    // To whom a row may be shown so follows from a reading of the standings before it and one behind it.
    ensures readings { ReadingsShow IsModelCrash }
    ensures readings_on { ReadingsShow LosesPower }
{}

/// The same of what the bytes of a disk alone tell: a number turns only as one of the six calls of a beat makes it turn, it is sure where a
/// crash cannot change it, and nobody has to say so.
pub fn calls_serve()
    ensures serves { CallsServe }
    // So it is with a file, over losses of power.
    ensures power { CallsServeOn }
    // To whom a row may be shown follows from what two readings of the standings give.
    ensures readings { ReadBytesShow IsModelCrash }
    ensures readings_on { ReadBytesShow LosesPower }
{}

/// The same of hosts each of which makes the calls that its own past on the disk allows: what it called there since it started, and how
/// each call was answered. Its core hears of a row once two readings of the standings show it.
pub fn pasts_serve()
    ensures serves { PastsServe }
    // So it is with a file, over losses of power.
    ensures power { PastsServeOn }
    // All of it is acts of hosts, as `epochs_are_runs` speaks of them.
    ensures acts { PastsAreActs IsModelCrash }
    ensures acts_on { PastsAreActs LosesPower }
    // A host may begin with a write on a disk of zeros, and is shown what it wrote.
    ensures begins { HostsMayBegin IsModelCrash }
    ensures begins_on { HostsMayBegin LosesPower }
{}

/// So what is done in an epoch is a run of the world that begins on zeros, and has one log.
pub fn epochs_are_runs()
    ensures at_once { EpochsAreAtOnce }
    ensures runs { EpochsAreRuns }
    // So it is over losses of power, each of which stops all hosts.
    ensures losses { EpochsAreOverLosses }
    // What is asked of disks holds where hosts go by their pasts.
    ensures pasts { PastsAreShared }
    ensures pasts_on { PastsAreSharedOverLosses }
{}
