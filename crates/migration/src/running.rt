// A migrator over simulated disks, and how each event changes them.
ghost use Rattle.std.specs.Prelude.{◌≡◌, ◌≤◌, ◌++◌, ◌∷◌, [], ℕ, List, All, IfOk, length, replicate};
ghost use Rattle.torn_block.specs.Layout.{cluster_version};
ghost use Rattle.torn_block.specs.declared.layout.TheConstants.{VALUE_LENGTH};
ghost use Rattle.paxos_block.specs.Places.{image_length};
ghost use Rattle.disk.specs.Simulated.{fresh_disk};
ghost use Rattle.migration.specs.Events.{Event, Step, Tear, FailCall, DiskCrash, DiskGone};
ghost use Rattle.paxos_block.specs.Image.{Setup};
ghost use Rattle.migration.specs.Kept.{setup_by};
ghost use Rattle.migration.specs.Running.{LeadsTo, IsReached, calm, event_of};

use crate::device_call::{is_refused, is_write, spoil};
use crate::event::MigrationEvent;
use crate::migrator::Migrator;
use attempt::{Heard, answer_of};
use disk::{DiskFault, NoMemory, SimDisk};
use paxos_block::{Config, Value};
use std::alloc::Global;
use torn_block::{ClusterLayout, ROW_LENGTH};

#[derive(Drop)]
pub struct Running {
    /// None where it has stopped within a call.
    pub migrator: Option<Migrator>,
    pub disks: Vec<SimDisk>,
}

impl Running {
    /// A migration that begins, over disks of zeros.
    pub fn new(
        alloc: Global,
        config: Config,
        cluster: u64,
        log: Vec<Value>,
    ) -> Result<Running, NoMemory>
        requires { length log.items ≤ config.slots }
        ensures { IfOk result (λ r. LeadsTo (setup_by config cluster log.items) [] r.migrator r.disks.items) }
    {
        measure(&log);
        let disks = fresh_disks(alloc, config)?;
        Ok(Running {
            migrator: Some(Migrator::new(config, cluster, log)),
            disks,
        })
    }

    /// Lets an event happen.
    pub fn happen(&mut self, event: &MigrationEvent)
        requires { IsReached self.old.migrator self.old.disks.items }
        ensures { (s : Setup) (events : List Event) → LeadsTo s events self.old.migrator self.old.disks.items →
            LeadsTo s (events ++ event_of event.now ∷ []) self.new.migrator self.new.disks.items }
    {
        match event {
            MigrationEvent::Step => self.step(),
            MigrationEvent::Tear { given } => self.tear(given.as_slice()),
            MigrationEvent::FailCall { given } => self.fail(given.as_slice()),
            MigrationEvent::DiskCrash { disk, given } => self.crash(*disk, given.as_slice()),
            MigrationEvent::DiskGone(disk) => self.lose(*disk),
        }
    }

    fn step(&mut self)
        requires { IsReached self.old.migrator self.old.disks.items }
        ensures { (s : Setup) (events : List Event) → LeadsTo s events self.old.migrator self.old.disks.items →
            LeadsTo s (events ++ Step ∷ []) self.new.migrator self.new.disks.items }
    {
        let Some(migrator) = &mut self.migrator else {
            return;
        };
        if migrator.end().is_some() {
            return;
        }
        let need = migrator.call();
        // It stays empty: no call of a migration reads.
        let mut row = [0; ROW_LENGTH];
        let heard = answer_of::<ClusterLayout, _>(
            &mut self.disks[usize::from(need.disk)],
            &need.call,
            &mut row,
        );
        migrator.hear(&heard);
    }

    fn tear(&mut self, given: &[u8])
        requires { IsReached self.old.migrator self.old.disks.items }
        ensures { (s : Setup) (events : List Event) → LeadsTo s events self.old.migrator self.old.disks.items →
            LeadsTo s (events ++ Tear given.now ∷ []) self.new.migrator self.new.disks.items }
    {
        let Some(migrator) = &self.migrator else {
            return;
        };
        if migrator.end().is_some() {
            return;
        }
        if given.is_empty() {
            return;
        }
        let need = migrator.call();
        if !is_write(&need.call) {
            return;
        }
        let at = usize::from(need.disk);
        if is_refused(&self.disks[at], &need.call) {
            return;
        }
        spoil(&mut self.disks[at], &need.call, given);
        self.migrator = None;
    }

    fn fail(&mut self, given: &[u8])
        requires { IsReached self.old.migrator self.old.disks.items }
        ensures { (s : Setup) (events : List Event) → LeadsTo s events self.old.migrator self.old.disks.items →
            LeadsTo s (events ++ FailCall given.now ∷ []) self.new.migrator self.new.disks.items }
    {
        let Some(migrator) = &mut self.migrator else {
            return;
        };
        if migrator.end().is_some() {
            return;
        }
        if given.is_empty() {
            return;
        }
        let need = migrator.call();
        let at = usize::from(need.disk);
        if is_refused(&self.disks[at], &need.call) {
            return;
        }
        spoil(&mut self.disks[at], &need.call, given);
        migrator.hear(&Heard::Fault(DiskFault::Failed));
    }

    fn crash(&mut self, disk: u8, given: &[u8])
        requires { IsReached self.old.migrator self.old.disks.items }
        ensures { (s : Setup) (events : List Event) → LeadsTo s events self.old.migrator self.old.disks.items →
            LeadsTo s (events ++ DiskCrash disk given.now ∷ []) self.new.migrator self.new.disks.items }
    {
        let at = usize::from(disk);
        if at >= self.disks.len() {
            return;
        }
        if given.is_empty() {
            return;
        }
        if !self.disks[at].may_crash() {
            return;
        }
        self.disks[at].crash(given);
    }

    fn lose(&mut self, disk: u8)
        requires { IsReached self.old.migrator self.old.disks.items }
        ensures { (s : Setup) (events : List Event) → LeadsTo s events self.old.migrator self.old.disks.items →
            LeadsTo s (events ++ DiskGone disk ∷ []) self.new.migrator self.new.disks.items }
    {
        let at = usize::from(disk);
        if at >= self.disks.len() {
            return;
        }
        if self.disks[at].is_lost() {
            return;
        }
        self.disks[at].lose();
    }
}

fn fresh_disks(alloc: Global, config: Config) -> Result<Vec<SimDisk>, NoMemory>
    ensures { IfOk result (λ disks. disks.items ≡
        replicate config.disks (calm (fresh_disk (image_length cluster_version config.slots)))) }
{
    let count = usize::from(config.disks());
    let mut disks = Vec::with_capacity(alloc, count)?;
    for _ in 0..count {
        disks.push_reserved(SimDisk::new(alloc, config.image_length())?);
    }
    Ok(disks)
}

// Called for its contract only. The checker knows the length of one value, not of all values in a list; the loop goes through them.
fn measure(log: &[Value])
    ensures { All (λ value. length value ≡ VALUE_LENGTH) log.now }
{
    for value in log {
        let _ = value.len();
    }
}
