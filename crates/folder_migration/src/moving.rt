ghost use Rattle.std.specs.Prelude.{◌≡◌, ◌≤◌, ◌↔◌, ◌*◌, ◌+◌, length};
ghost use Rattle.migration.specs.Kept.{setup_by};
ghost use Rattle.folder_migration.specs.Moving.{AreLarge, HasMoved, AllWell};

use disk::Disk;
use dlm_images::answer_among;
use lock_command::Value;
use migration::{End, Migrator};
use paxos_block::Config;
use torn_block::{ClusterLayout, DISKS, ROW_LENGTH, SLOTS};

/// No migration makes more calls: six a disk, and one a disk for each slot of the log.
const MOST_CALLS: u32 = (SLOTS + 6) * DISKS as u32 + 1;

/// Writes a log onto new images of zeros, as host 0 of a cluster of this number would have left it.
pub fn move_log<D: Disk>(config: Config, cluster: u64, log: Vec<Value>, disks: &mut [D]) -> End
    requires fits { length log.items ≤ config.slots }
    requires as_many { length disks.old ≡ config.disks }
    requires large { AreLarge D.device config.slots disks.old }
    ensures moved { HasMoved D.gives (setup_by config cluster log.items) disks.old disks.new result }
    // It ends well exactly when each call was answered well.
    ensures well { (done : HasMoved D.gives (setup_by config cluster log.items) disks.old disks.new result) →
        (result ≡ End.Migrated) ↔ AllWell done.answers }
    ensures calls { (done : HasMoved D.gives (setup_by config cluster log.items) disks.old disks.new result) →
        result ≡ End.Migrated → length done.answers ≡ config.disks * (length log.items + 6) }
{
    let mut migrator = Migrator::new(config, cluster, log);
    let mut row = [0; ROW_LENGTH];
    for _made in 0..MOST_CALLS {
        if let Some(end) = migrator.end() {
            return end;
        }
        let need = migrator.call();
        let heard = answer_among::<ClusterLayout, D>(disks, &need, &mut row);
        migrator.hear(&heard);
    }
    unreachable!()
}
