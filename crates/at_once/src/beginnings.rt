// What a format and a migration leave, if each of their device calls takes effect at one moment: what hosts over the same images begin with.
ghost use Rattle.at_once.specs.Beginnings.{ClearedIsFresh, LaidOutIsBlank, LaidOutSaysHeader, MakesAllOrNothing, MovedHoldsLog, MovedIsWhole, PowerLeavesAllOrNothing};
ghost use Rattle.at_once.specs.Beginnings.{ClearedFileIsFresh, FilesMakeAllOrNothing, LaidOutFileIsBlank, LaidOutFileSaysHeader, MovedFilesAreWhole, MovedFilesHoldLog, StoppedFilesAreAllOrNothing};

use disk::Disk;

/// Hosts over the same images begin with images that hold nothing, or that a migration of a log left. A format leaves the one, and a
/// migration that ended well the other, on disks that make a step of the disk model with each answer. A disk may be longer than an image.
pub fn new_disks_are_beginnings<D: Disk>()
    ensures laid { LaidOutIsBlank D.gives D.state }
    ensures headed { LaidOutSaysHeader D.gives D.state }
    // A migration begins on disks that were made zeros.
    ensures cleared { ClearedIsFresh D.gives D.state }
    // After each of its calls all or nothing is there, so also where it was stopped between two of them.
    ensures moved { MakesAllOrNothing D.gives D.state }
    ensures power { PowerLeavesAllOrNothing D.gives D.state }
    ensures whole { MovedIsWhole D.gives D.state }
    ensures held { MovedHoldsLog D.gives D.state }
{}

/// So it is with files, whose bytes contracts do not see: each image that makes a step with each of the calls that were made, answered as
/// the file answered, is left so.
pub fn new_files_are_beginnings<D: Disk>()
    ensures laid { LaidOutFileIsBlank D.gives }
    ensures headed { LaidOutFileSaysHeader D.gives }
    ensures cleared { ClearedFileIsFresh D.gives }
    ensures moved { FilesMakeAllOrNothing D.gives }
    // So it is where it was stopped within a call, and after a loss of power then.
    ensures stopped { StoppedFilesAreAllOrNothing D.gives }
    ensures whole { MovedFilesAreWhole D.gives }
    ensures held { MovedFilesHoldLog D.gives }
{}
