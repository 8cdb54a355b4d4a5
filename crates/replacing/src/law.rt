// A disk that the tool for lost images replaced, as another disk of a run. These functions do nothing.
ghost use Rattle.replacing.specs.Example.{MayBeReplacedAtFirst};
ghost use Rattle.replacing.specs.Folders.{FoldersHaveOneLog, FoldersHaveOneLogOverLosses};
ghost use Rattle.epoch_runs.specs.World.{model_crashes, power_losses};
ghost use Rattle.replacing.specs.Headers.{HeadersSay, HeadersTell};
ghost use Rattle.replacing.specs.Laws.{FilesAreReplaced, PutMakesSteps, ReplacedGoesOn, ReplacedGoesOnOverLosses, ReplacementsHaveOneLog, ReplacementsHaveOneLogOverLosses, RowsShowNoneAbove, ShowingMakesSteps};

use disk::Disk;

/// What the tool reads and writes on any disk that makes a step of the disk model with each call is read and written in the model.
pub fn replacements_are_steps<D: Disk>()
    ensures shows { ShowingMakesSteps D.gives D.state }
    ensures put { PutMakesSteps D.gives D.state }
    // The rows of standings that it puts on the new disk show no number above that epoch by which the first one was chosen.
    ensures rows { RowsShowNoneAbove D.gives }
{}

/// Where hosts of all epochs have come somewhere and have all stopped, and the tool puts a new image in the place of a lost one, by what the other images tell as
/// they are, a run goes on with it: the new image is a disk as a run asks for, and takes part in epochs in which no core has called the lost one.
pub fn replaced_disks_go_on()
    // A folder of which `replace_disk` says that an image was replaced has such a disk.
    ensures files { FilesAreReplaced }
    ensures model { ReplacedGoesOn }
    // So it is over losses of power.
    ensures power { ReplacedGoesOnOverLosses }
    // So where disks are replaced by the tool alone, as often as it may be, all that hosts tell goes by one log.
    ensures one_log { ReplacementsHaveOneLog }
    ensures one_log_on { ReplacementsHaveOneLogOverLosses }
    // At first one of two disks may be replaced, so this is not said of nothing.
    ensures fresh { MayBeReplacedAtFirst }
{}

/// So it is over the images of a folder, which have headers: what hosts and the tool do to them, they do to what hosts use of them.
pub fn folders_have_one_log()
    ensures model { FoldersHaveOneLog }
    ensures power { FoldersHaveOneLogOverLosses }
    // Each image's header says from which epoch on it takes part.
    ensures headers { HeadersSay model_crashes }
    ensures headers_on { HeadersSay power_losses }
    // So whoever reads one is told that epoch.
    ensures told { HeadersTell }
{}
