// Two epochs over one disk, to which hosts keep. So what is claimed of such epochs is not claimed of none.
ghost use Rattle.std.specs.Prelude.{◌≡◌, ℕ, []};
ghost use Rattle.lock_table.specs.Apply.{granted};
ghost use Rattle.world.specs.Chosen.{migrated};
ghost use Rattle.world.specs.Examples.{one_disk, takes_db};
ghost use Rattle.world.specs.World.{IsRun};
ghost use Rattle.endless.specs.Examples.{takes_db_again, two_epochs};
ghost use Rattle.endless.specs.Headline.{IsAcknowledgedIn, KeepsToEpochs};
ghost use Rattle.endless.specs.Lived.{part};

/// Two commands fill the first epoch, a lock taken and released. What carries their table over begins the second one, and the lock is taken
/// again there. Each epoch is a run that begins on zeros, and its hosts keep to what is asked of them.
pub fn two_epochs_follow()
    ensures runs { (e : ℕ) → IsRun one_disk (part e two_epochs) }
    ensures fresh { (e : ℕ) → migrated (part e two_epochs) ≡ [] }
    ensures keeps { KeepsToEpochs one_disk two_epochs }
    // The first command of the first epoch is acknowledged there, and the last one of the second epoch there.
    ensures first { IsAcknowledgedIn one_disk two_epochs 18 0 0 0 takes_db granted }
    ensures second { IsAcknowledgedIn one_disk two_epochs 73 1 0 1 takes_db_again granted }
{}
