ghost use Rattle.std.specs.Prelude.{◌≡◌, IfErr, IfOk, Err, Ok, length};
ghost use Rattle.migration.specs.declared.end.End.TheVariants.{Migrated};
ghost use Rattle.folder_migration.specs.Moving.{AreLarge};
ghost use Rattle.folder_migration.specs.Renewing.{Carries, MayCarry, StopsRenewing, first_with_locks};

use crate::moving::move_log;
use crate::renew_fault::{NewFault, RenewFault};
use disk::Disk;
use dlm_images::DiskHost;
use host::Config;
use lock_command::ClientNumber;
use lock_table::Table;
use migration::End;
use std::alloc::Global;

/// Carries the table of a host over onto new disks, which are made once it is known what is carried over, and leaves these clients out. Gives the number
/// of the commands.
/// What is made with the disks is kept as long as they are written.
pub fn renew_disks<D: Disk, E: Disk + Drop, K: Drop, F: FnOnce() -> Result<(Vec<E>, K), NewFault>>(
    alloc: Global,
    host: &DiskHost<D>,
    config: Config,
    cluster: u64,
    leave: &[ClientNumber],
    make: F,
) -> Result<u16, RenewFault>
    // They are made only once the table may be carried over.
    requires may_make { MayCarry config.slots leave.now host.now.core.prefix → F.pre make }
    requires made { (made : _) → F.post make (Ok made) → (length made.0.items ≡ config.disks) × AreLarge E.device config.slots made.0.items }
    ensures renewed { IfOk result (λ commands. Carries E.gives (λ images. (made : _) × F.post make (Ok made) × (made.0.items ≡ images)) config cluster leave.now host.now.core.prefix commands Migrated) }
    ensures stopped { IfErr result (StopsRenewing E.gives (λ images. (made : _) × F.post make (Ok made) × (made.0.items ≡ images)) (λ fault. F.post make (Err fault)) config cluster leave.now host.now.core.prefix) }
{
    let table = host.table();
    if let Some(client) = first_with_locks(table, leave) {
        return Err(RenewFault::HasLocks(client));
    }
    let Ok(log) = table.carried_over(alloc, leave) else {
        return Err(RenewFault::NoMemory);
    };
    if log.len() >= usize::from(config.slots()) {
        return Err(RenewFault::TooFewSlots);
    }
    let commands = log.len() as u16;
    let (mut images, _kept) = make()?;
    match move_log(config, cluster, log, &mut images) {
        End::Migrated => Ok(commands),
        End::MigrationFailed => Err(RenewFault::RenewalFailed),
    }
}

/// The first of these clients that has a lock, or waits for one.
fn first_with_locks(table: &Table, clients: &[ClientNumber]) -> Option<ClientNumber>
    ensures { result ≡ first_with_locks clients.now table.now }
{
    for at in 0..clients.len() {
        let client = clients[at];
        if table.has_locks(client) {
            return Some(client);
        }
    }
    None
}
