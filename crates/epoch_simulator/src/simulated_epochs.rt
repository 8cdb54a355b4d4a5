ghost use Rattle.std.specs.Prelude.{◌≡◌, ◌<◌, ◌↔◌, [], true, false, None, IsSome, IfOk, IfErr, IfSome, OnErr, OnOk, is_none, replicate, length};
ghost use Rattle.disk.specs.Disk.{Fault, lost};
ghost use Rattle.disk.specs.Simulated.{crashed, fresh_disk};
ghost use Rattle.disk.specs.declared.fault.DiskFault.TheVariants.{Failed};
ghost use Rattle.standings.specs.Epochs.{whole_length};
ghost use Rattle.epoch_deeds.specs.Knowing.{image_of};
ghost use Rattle.epoch_host.specs.Ending.{HasLearnedUpto, IsTableOf, IsThere};
ghost use Rattle.epoch_host.specs.Walking.{MayBegin};
ghost use Rattle.epoch_runs.specs.World.{Crashes, Loses};
ghost use Rattle.epoch_simulator.specs.Doing.{Begins, ChangesDisk, GivesUp, HasBegun, Hears, IsBusy, IsCause, IsIdle, KeepsTask, OfDeeds, OfHost, Stops, StopsWithin, cut_due, disk_of, may_crash, may_fail, may_lose, may_tear, outcome_due};
ghost use Rattle.epoch_simulator.specs.Kept.{AreNew, IsHost, LeadsTo, calm};

use crate::begin_fault::BeginFault;
use crate::device_call::{is_write, make, spoil, takes};
use attempt::Heard;
use disk::{DiskFault, NoMemory, SimDisk};
use epoch_host::{EpochAnswer, EpochHost, EpochTask};
use lock_command::{HOSTS, HostNumber};
use lock_table::Table;
use paxos_block::Config;
use standings::whole_length;
use std::alloc::Global;
use std::marker::Model;
use torn_block::ROW_LENGTH;

/// The hosts and disks of a cluster whose log has no end.
///
/// There are always sixteen hosts. One that was never given a task, or was stopped, is idle and knows nothing.
#[derive(Drop)]
pub struct SimulatedEpochs {
    alloc: Global,
    config: Config,
    disks: Vec<SimDisk>,
    hosts: Vec<EpochHost>,
    row: [u8; ROW_LENGTH],
}

impl Model for SimulatedEpochs {
    ghost use Rattle.epoch_simulator.specs.Kept.{Kept, IsReached};

    ghost Value = { Kept };

    ghost view = { λ p. record { shape = p.config; disks = p.disks.items; hosts = p.hosts.items } };

    ghost invariant = { λ p. IsReached (record { shape = p.config; disks = p.disks.items; hosts = p.hosts.items }) };
}

impl SimulatedEpochs {
    /// Disks of zeros, as long as two areas of so many slots need, and hosts that know nothing.
    pub fn new(alloc: Global, config: Config) -> Result<SimulatedEpochs, NoMemory>
        ensures shape { IfOk result (λ cluster. cluster.shape ≡ config) }
        ensures hosts { IfOk result (λ cluster. AreNew config cluster.hosts) }
        ensures leads { IfOk result (λ cluster. LeadsTo [] cluster) }
    {
        let disks = fresh_disks(alloc, config)?;
        let hosts = fresh_hosts(alloc, config)?;
        Ok(SimulatedEpochs {
            alloc,
            config,
            disks,
            hosts,
            row: [0; ROW_LENGTH],
        })
    }

    /// A host.
    pub fn host(&self, host: HostNumber) -> &EpochHost
        ensures { IsHost self.now host result.now }
    {
        &self.hosts[usize::from(host.get())]
    }

    /// Whether a host has no task under way.
    pub fn is_idle(&self, host: HostNumber) -> bool
        ensures idle { result ≡ true → IsIdle self.now host }
        ensures busy { result ≡ false → IsBusy self.now host }
    {
        self.host(host).idle()
    }

    /// How a host's last task ended. None while one is under way, and where it was given up.
    pub fn answer(&self, host: HostNumber) -> Option<EpochAnswer>
        ensures { OfHost self.now host (λ w. result ≡ w.said) }
    {
        self.host(host).answer()
    }

    /// A host has learned all places below this one. None where it has no table.
    pub fn length(&self, host: HostNumber) -> Option<u64>
        ensures known { IfSome result (λ upto. OfDeeds self.now host (λ deeds. (learned : _) × HasLearnedUpto self.now.shape host deeds upto learned)) }
        ensures there { OfHost self.now host (λ w. IsThere w → IsSome result) }
    {
        self.host(host).length()
    }

    /// A host's lock table, after all commands below `length`.
    pub fn table(&self, host: HostNumber) -> Option<&Table>
        ensures known { IfSome result (λ shown. OfDeeds self.now host (λ deeds. (upto : _) × IsTableOf self.now.shape host deeds upto shown.now)) }
        ensures there { OfHost self.now host (λ w. IsThere w → IsSome result) }
    {
        self.host(host).table()
    }

    /// Gives an idle host a task.
    pub fn begin(&mut self, host: HostNumber, task: EpochTask) -> Result<(), BeginFault>
        ensures begun { OnOk result (Begins host task self.old self.new (HasBegun task)) }
        ensures refused { IfErr result (IsCause host task self.old self.new) }
    {
        if !self.is_idle(host) {
            return Err(BeginFault::Busy);
        }
        if !may_begin(host, &task) {
            return Err(BeginFault::NotAllowed);
        }
        match self.hosts[usize::from(host.get())].begin(task) {
            Ok(()) => Ok(()),
            Err(_) => Err(BeginFault::NoMemory),
        }
    }

    /// A host makes the call that it has due, and hears the answer. If memory is refused then, it gives its task up.
    pub fn step(&mut self, host: HostNumber) -> Result<(), NoMemory>
        requires { IsBusy self.old host }
        ensures heard { OnOk result (Hears host (outcome_due self.old host).0 (outcome_due self.old host).1 self.old self.new KeepsTask) }
        ensures given_up { OnErr result (Hears host (outcome_due self.old host).0 (outcome_due self.old host).1 self.old self.new GivesUp) }
    {
        let own = &mut self.hosts[usize::from(host.get())];
        let need = own.call();
        let disk = &mut self.disks[usize::from(need.disk)];
        let heard = make(disk, &need.call, &mut self.row);
        own.hear(&heard)
    }

    /// Whether the disk does not refuse the call that a host has due.
    pub fn may_fail(&self, host: HostNumber) -> bool
        requires { IsBusy self.now host }
        ensures { result ≡ may_fail self.now host }
    {
        let need = self.hosts[usize::from(host.get())].call();
        takes(&self.disks[usize::from(need.disk)], &need.call)
    }

    /// The call that a host has due fails, and the host hears that. The range of a write takes the given bytes in turn. If memory is refused then, the host
    /// gives its task up.
    pub fn fail(&mut self, host: HostNumber, given: &[u8]) -> Result<(), NoMemory>
        requires busy { IsBusy self.old host }
        requires may { may_fail self.old host ≡ true }
        requires given { 0 < length given.now }
        ensures heard { OnOk result (Hears host (cut_due self.old host given.now) (Fault Failed) self.old self.new KeepsTask) }
        ensures given_up { OnErr result (Hears host (cut_due self.old host given.now) (Fault Failed) self.old self.new GivesUp) }
    {
        let own = &mut self.hosts[usize::from(host.get())];
        let need = own.call();
        spoil(&mut self.disks[usize::from(need.disk)], &need.call, given);
        own.hear(&Heard::Fault(DiskFault::Failed))
    }

    /// A host stops, and knows nothing any more.
    pub fn stop(&mut self, host: HostNumber)
        ensures { Stops host self.old self.new }
    {
        self.hosts[usize::from(host.get())] = EpochHost::new(self.alloc, host, self.config);
    }

    /// Whether the call that a host has due is a write, and its disk does not refuse it.
    pub fn may_tear(&self, host: HostNumber) -> bool
        requires { IsBusy self.now host }
        ensures { result ≡ may_tear self.now host }
    {
        let need = self.hosts[usize::from(host.get())].call();
        is_write(&need.call) && takes(&self.disks[usize::from(need.disk)], &need.call)
    }

    /// A host stops within the write that it has due, whose range takes the given bytes in turn.
    pub fn tear(&mut self, host: HostNumber, given: &[u8])
        requires busy { IsBusy self.old host }
        requires may { may_tear self.old host ≡ true }
        requires given { 0 < length given.now }
        ensures { StopsWithin host given.now self.old self.new }
    {
        let own = &mut self.hosts[usize::from(host.get())];
        let need = own.call();
        spoil(&mut self.disks[usize::from(need.disk)], &need.call, given);
        // Called for its contract only: it says that the host may make the write.
        let _ = own.hear(&Heard::Fault(DiskFault::Failed));
        *own = EpochHost::new(self.alloc, host, self.config);
    }

    /// Whether there is such a disk, it is not lost, and its boot number may rise.
    pub fn may_crash(&self, disk: u8) -> bool
        ensures { result ≡ may_crash self.now disk }
    {
        let at = usize::from(disk);
        at < self.disks.len() && self.disks[at].may_crash()
    }

    /// A disk loses power and comes up again: its unsynced positions take the given bytes in turn.
    pub fn crash(&mut self, disk: u8, given: &[u8])
        requires may { may_crash self.old disk ≡ true }
        requires given { 0 < length given.now }
        ensures { ChangesDisk disk (record (disk_of self.old disk) { disk = crashed (disk_of self.old disk).disk given.now }) (Crashes disk) self.old self.new }
    {
        self.disks[usize::from(disk)].crash(given);
    }

    /// Whether there is such a disk, and it is not lost.
    pub fn may_lose(&self, disk: u8) -> bool
        ensures { result ≡ may_lose self.now disk }
    {
        let at = usize::from(disk);
        at < self.disks.len() && !self.disks[at].is_lost()
    }

    /// A disk is lost for good.
    pub fn lose(&mut self, disk: u8)
        requires { may_lose self.old disk ≡ true }
        ensures { ChangesDisk disk (record (disk_of self.old disk) { disk = lost (disk_of self.old disk).disk }) (Loses disk) self.old self.new }
    {
        self.disks[usize::from(disk)].lose();
    }
}

/// Whether a host may be given the task.
fn may_begin(host: HostNumber, task: &EpochTask) -> bool
    ensures { result ≡ true ↔ MayBegin host task.now }
{
    match task {
        EpochTask::Submit { command, tries } => {
            0 < *tries && command.host == host && command.is_submittable()
        }
        EpochTask::Recover { tries } => 0 < *tries,
        EpochTask::Look | EpochTask::Beat | EpochTask::Mark { .. } => true,
    }
}

fn fresh_disks(alloc: Global, config: Config) -> Result<Vec<SimDisk>, NoMemory>
    ensures { IfOk result (λ disks. disks.items ≡ replicate config.disks (calm (fresh_disk (whole_length (image_of config))))) }
{
    let count = usize::from(config.disks());
    let mut disks = Vec::with_capacity(alloc, count)?;
    for _ in 0..count {
        disks.push_reserved(SimDisk::new(alloc, whole_length(config.slots()))?);
    }
    Ok(disks)
}

fn fresh_hosts(alloc: Global, config: Config) -> Result<Vec<EpochHost>, NoMemory>
    ensures { IfOk result (λ hosts. AreNew config hosts.items) }
{
    let mut hosts = Vec::with_capacity(alloc, HOSTS)?;
    for number in 0..HOSTS {
        let Some(host) = HostNumber::new(number as u8) else {
            unreachable!()
        };
        hosts.push_reserved(EpochHost::new(alloc, host, config));
    }
    Ok(hosts)
}
