ghost use Rattle.std.specs.Prelude.{◌≡◌, ◌≤◌, IfOk, length};
ghost use Rattle.migration.specs.Events.{run};
ghost use Rattle.migration.specs.Kept.{setup_by};
ghost use Rattle.migration.specs.Run.{IsAllOrNothing};
ghost use Rattle.migration.specs.Running.{AreDisks, disk_in, events_of};

use crate::event::MigrationEvent;
use crate::running::Running;
use disk::{NoMemory, SimDisk};
use paxos_block::{Config, Value};
use std::alloc::Global;

/// Runs a migration over disks of zeros, event by event, and gives the disks.
pub fn migrate_run(
    alloc: Global,
    config: Config,
    cluster: u64,
    log: Vec<Value>,
    events: &[MigrationEvent],
) -> Result<Vec<SimDisk>, NoMemory>
    requires { length log.items ≤ config.slots }
    // They are what the events make of them.
    ensures disks { IfOk result (λ disks. let s = setup_by config cluster log.items in
        AreDisks s (run s (events_of events.now)) disks.items) }
    // No gate is open, or all disks are complete except perhaps for their gates.
    ensures all_or_nothing { IfOk result (λ disks. let s = setup_by config cluster log.items in
        IsAllOrNothing s (disk_in disks.items)) }
{
    let mut running = Running::new(alloc, config, cluster, log)?;
    for event in events {
        running.happen(event);
    }
    Ok(running.disks)
}
