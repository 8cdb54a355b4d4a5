ghost use Rattle.std.specs.Prelude.{◌≡◌, ℕ, List, [], true, false, Some, None, slice_index_or, length, replicate, ◌<◌, ◌≤◌, ◌&&◌, is_none, IsSome, IfOk, OnErr, OnOk};
ghost use Rattle.disk.specs.Simulated.{fresh_disk};
ghost use Rattle.torn_block.specs.Layout.{cluster_version};
ghost use Rattle.paxos_block.specs.Places.{image_length};
ghost use Rattle.std.specs.Option.{option_map};
ghost use Rattle.paxos_block.specs.Shape.{Shape};
ghost use Rattle.world.specs.Entry as entries;
ghost use Rattle.world.specs.Entry.{Filled};
ghost use Rattle.world.specs.Opening.{CanBegin, begun};
ghost use Rattle.world.specs.World.{may_submit};
ghost use Rattle.world.specs.Happens.{Start, Stop, Begin, Step, Tear, FailCall, DiskCrash, DiskGone, brings_if, task_entry};
ghost use Rattle.simulator.specs.Events.{event_of};
ghost use Rattle.simulator.specs.Kept.{TellsNext, Kept, LeadsTo, Brings, BringsAll, said_now, calm, is_busy, is_free};

use crate::device_call::{crash_disk, is_write, lose_disk, make, refusal_of, spoil};
use crate::migrated::{migrate_again, migrated_disks};
use attempt::Heard;
use disk::{DiskFault, NoMemory, SimDisk};
use host::{HostAnswer, HostCore, Task};
use lock_command::{Action, Command, HOSTS, HostNumber};
use lock_script::Event;
use paxos_block::Config;
use std::alloc::Global;
use std::marker::Model;
use torn_block::ROW_LENGTH;

/// A host, and what it says.
#[derive(Clone, Copy, Debug)]
pub struct Said {
    pub host: HostNumber,
    pub answer: HostAnswer,
}

/// The hosts and disks of a cluster.
#[derive(Drop)]
pub struct SimulatedCluster {
    config: Config,
    disks: Vec<SimDisk>,
    hosts: Vec<Option<HostCore>>,
    row: [u8; ROW_LENGTH],
}

impl Model for SimulatedCluster {
    ghost use Rattle.simulator.specs.Kept.{Kept, IsReached};

    ghost Value = { Kept };

    ghost view = { λ p. record { shape = p.config; disks = p.disks.items; hosts = p.hosts.items } };

    ghost invariant = { λ p. IsReached (record { shape = p.config; disks = p.disks.items; hosts = p.hosts.items }) };
}

impl SimulatedCluster {
    /// Disks of zeros, and hosts that are all stopped.
    pub fn new(alloc: Global, config: Config) -> Result<SimulatedCluster, NoMemory>
        ensures shape { IfOk result (λ cluster. cluster.shape ≡ config) }
        ensures leads { IfOk result (λ cluster. LeadsTo [] cluster) }
    {
        let disks = fresh_disks(alloc, config)?;
        let hosts = stopped_hosts(alloc)?;
        Ok(SimulatedCluster {
            config,
            disks,
            hosts,
            row: [0; ROW_LENGTH],
        })
    }

    /// Disks as a complete migration of these commands left them, and hosts that are all stopped.
    pub fn migrated(
        alloc: Global,
        config: Config,
        log: &[Command],
    ) -> Result<SimulatedCluster, NoMemory>
        requires { length log.now ≤ config.slots }
        ensures shape { IfOk result (λ cluster. cluster.shape ≡ config) }
        ensures leads { IfOk result (λ cluster. LeadsTo (begun (record { shape = config; moved = log.now })) cluster) }
        ensures can { IfOk result (λ _. CanBegin (record { shape = config; moved = log.now })) }
    {
        let disks = migrated_disks(alloc, config, log)?;
        let hosts = stopped_hosts(alloc)?;
        Ok(SimulatedCluster {
            config,
            disks,
            hosts,
            row: [0; ROW_LENGTH],
        })
    }

    /// Makes of the cluster, whatever has happened to it, one that `migrated` gives for its size. No disk is made.
    pub fn restart(&mut self, alloc: Global, log: &[Command]) -> Result<(), NoMemory>
        requires { length log.now ≤ self.old.shape.slots }
        ensures shape { self.new.shape ≡ self.old.shape }
        ensures leads { OnOk result (LeadsTo (begun (record { shape = self.old.shape; moved = log.now })) self.new) }
        ensures can { OnOk result (CanBegin (record { shape = self.old.shape; moved = log.now })) }
        ensures unchanged { OnErr result (self.new ≡ self.old) }
    {
        migrate_again(alloc, self.config, &mut self.disks, log)?;
        stop_all(&mut self.hosts);
        Ok(())
    }

    /// A running host.
    pub fn host(&self, host: u8) -> Option<&HostCore>
        ensures { option_map (λ core. core.now) result ≡ slice_index_or self.now.hosts host None }
    {
        let at = usize::from(host);
        if at < self.hosts.len() {
            self.hosts[at].as_ref()
        } else {
            None
        }
    }

    /// The disk of a host's next device call, and whether the call is a write that may be torn; none where it makes none.
    pub fn next_call(&mut self, host: HostNumber) -> Option<(u8, bool)>
        ensures unchanged { self.new ≡ self.old }
        ensures next { TellsNext host result self.old }
    {
        let at = usize::from(host.get());
        if !is_busy(&self.hosts[at]) {
            return None;
        }
        let Some(core) = &self.hosts[at] else {
            unreachable!()
        };
        let need = core.call();
        let disk = &mut self.disks[usize::from(need.disk)];
        let refusal = refusal_of(disk, &need.call);
        let tears = may_tear(is_write(&need.call), refusal);
        Some((need.disk, tears))
    }

    /// Whether a host has no device call to make.
    pub fn is_idle(&self, host: HostNumber) -> bool
        ensures { result ≡ true → TellsNext host None self.now }
    {
        !is_busy(&self.hosts[usize::from(host.get())])
    }

    /// Lets an event happen, and tells what its host then says.
    pub fn event(&mut self, alloc: Global, event: &Event) -> Result<Option<Said>, NoMemory>
        ensures brings { IfOk result (λ said. (log : List Filled) → LeadsTo log self.old → Brings log (event_of event.now) self.old self.new said) }
        ensures unchanged { OnErr result (self.new ≡ self.old) }
    {
        match event {
            Event::Start(host) => {
                self.start(alloc, *host)?;
                Ok(None)
            }
            Event::Stop(host) => {
                self.stop(*host);
                Ok(None)
            }
            Event::Submit { command, tries } => Ok(self.begin(
                command.host,
                Task::Submit {
                    command: *command,
                    tries: *tries,
                },
            )),
            Event::Recover { host, tries } => {
                Ok(self.begin(*host, Task::Recover { tries: *tries }))
            }
            Event::Look(host) => Ok(self.begin(*host, Task::Look)),
            Event::Beat(host) => Ok(self.begin(*host, Task::Beat)),
            Event::Mark { host, slot } => Ok(self.begin(*host, Task::Mark { slot: *slot })),
            Event::Step(host) => Ok(self.step(*host)),
            Event::Tear { host, given } => {
                self.tear(*host, given.as_slice());
                Ok(None)
            }
            Event::FailCall { host, given } => Ok(self.fail(*host, given.as_slice())),
            Event::DiskCrash { disk, given } => {
                self.crash(*disk, given.as_slice());
                Ok(None)
            }
            Event::DiskGone(disk) => {
                self.lose(*disk);
                Ok(None)
            }
        }
    }

    fn start(&mut self, alloc: Global, host: HostNumber) -> Result<(), NoMemory>
        ensures brings { IfOk result (λ _. (log : List Filled) → LeadsTo log self.old → Brings log (Start host) self.old self.new None) }
        ensures unchanged { OnErr result (self.new ≡ self.old) }
    {
        let at = usize::from(host.get());
        if self.hosts[at].is_some() {
            return Ok(());
        }
        let core = HostCore::start(alloc, host, self.config)?;
        self.hosts[at] = Some(core);
        Ok(())
    }

    fn stop(&mut self, host: HostNumber)
        ensures { (log : List Filled) → LeadsTo log self.old → Brings log (Stop host) self.old self.new None }
    {
        self.hosts[usize::from(host.get())] = None;
    }

    /// Gives an idle host a task.
    fn begin(&mut self, host: HostNumber, task: Task) -> Option<Said>
        ensures { (log : List Filled) → LeadsTo log self.old → Brings log (Begin host task) self.old self.new result }
    {
        let at = usize::from(host.get());
        if !may_be_given(self.config, host, &task) {
            return None;
        }
        if !is_free(&self.hosts[at]) {
            return None;
        }
        let Some(core) = &mut self.hosts[at] else {
            unreachable!()
        };
        core.begin(task);
        answer_of(host, core)
    }

    /// Lets a host make device calls until it says something, so many at most. Gives how many it made, and what it then said.
    /// Once it has none to make, the rest are counted only.
    pub fn steps(&mut self, host: HostNumber, most: usize) -> (usize, Option<Said>)
        ensures brings { (log : List Filled) → LeadsTo log self.old → BringsAll log (replicate result.0 (Step host)) self.old self.new result.1 }
        ensures within { result.0 ≤ most }
        ensures some { 1 ≤ most → 1 ≤ result.0 }
        ensures all { result.1 ≡ None → result.0 ≡ most }
    {
        for made in 0..most {
            if self.is_idle(host) {
                return (most, None);
            }
            if self.advance(host) {
                return (made + 1, self.said_by(host));
            }
        }
        (most, None)
    }

    fn step(&mut self, host: HostNumber) -> Option<Said>
        ensures { (log : List Filled) → LeadsTo log self.old → Brings log (Step host) self.old self.new result }
    {
        if self.advance(host) {
            self.said_by(host)
        } else {
            None
        }
    }

    /// What a host says now. Out of line, since after most steps a host says nothing and is not asked.
    #[inline(never)]
    fn said_by(&self, host: HostNumber) -> Option<Said>
        ensures { result ≡ said_now host self.now }
    {
        match &self.hosts[usize::from(host.get())] {
            None => None,
            Some(core) => answer_of(host, core),
        }
    }

    /// Lets a host make a device call, and tells whether it then says something. Out of line, so that the call is written into
    /// one place.
    #[inline(never)]
    fn advance(&mut self, host: HostNumber) -> bool
        ensures speaks { result ≡ true → IsSome (said_now host self.new) }
        ensures spoken { result ≡ true → (log : List Filled) → LeadsTo log self.old → Brings log (Step host) self.old self.new (said_now host self.new) }
        ensures silent { result ≡ false → (log : List Filled) → LeadsTo log self.old → Brings log (Step host) self.old self.new None }
    {
        let at = usize::from(host.get());
        if !is_busy(&self.hosts[at]) {
            return false;
        }
        let Some(core) = &mut self.hosts[at] else {
            unreachable!()
        };
        let need = core.call();
        let disk = &mut self.disks[usize::from(need.disk)];
        let heard = make(disk, &need.call, &mut self.row);
        core.hear(&heard);
        !core.is_silent()
    }

    fn tear(&mut self, host: HostNumber, given: &[u8])
        requires { 0 < length given.now }
        ensures { (log : List Filled) → LeadsTo log self.old → Brings log (Tear host given.now) self.old self.new None }
    {
        let at = usize::from(host.get());
        if !is_busy(&self.hosts[at]) {
            return;
        }
        let Some(core) = &self.hosts[at] else {
            unreachable!()
        };
        let need = core.call();
        if !is_write(&need.call) {
            return;
        }
        let disk = &mut self.disks[usize::from(need.disk)];
        if refusal_of(disk, &need.call).is_some() {
            return;
        }
        spoil(disk, &need.call, given);
        self.hosts[at] = None;
    }

    fn fail(&mut self, host: HostNumber, given: &[u8]) -> Option<Said>
        requires { 0 < length given.now }
        ensures { (log : List Filled) → LeadsTo log self.old → Brings log (FailCall host given.now) self.old self.new result }
    {
        let at = usize::from(host.get());
        if !is_busy(&self.hosts[at]) {
            return None;
        }
        let Some(core) = &mut self.hosts[at] else {
            unreachable!()
        };
        let need = core.call();
        let disk = &mut self.disks[usize::from(need.disk)];
        if refusal_of(disk, &need.call).is_some() {
            return None;
        }
        spoil(disk, &need.call, given);
        core.hear(&Heard::Fault(DiskFault::Failed));
        answer_of(host, core)
    }

    fn crash(&mut self, disk: u8, given: &[u8])
        requires { 0 < length given.now }
        ensures { (log : List Filled) → LeadsTo log self.old → Brings log (DiskCrash disk given.now) self.old self.new None }
    {
        let at = usize::from(disk);
        if at < self.disks.len() {
            let disk = &mut self.disks[at];
            crash_disk(disk, given);
        }
    }

    fn lose(&mut self, disk: u8)
        ensures { (log : List Filled) → LeadsTo log self.old → Brings log (DiskGone disk) self.old self.new None }
    {
        let at = usize::from(disk);
        if at < self.disks.len() {
            let disk = &mut self.disks[at];
            lose_disk(disk);
        }
    }
}

/// Whether there is a host that carries out an operation.
fn is_busy(slot: &Option<HostCore>) -> bool
    ensures { result ≡ is_busy slot.now }
{
    match slot {
        None => false,
        Some(core) => !core.idle(),
    }
}

/// Whether there is a host that carries out none.
fn is_free(slot: &Option<HostCore>) -> bool
    ensures { result ≡ is_free slot.now }
{
    match slot {
        None => false,
        Some(core) => core.idle(),
    }
}

/// Whether a host may submit the command: its own, for which a client may ask, or one that carries a part of a table over.
fn may_submit(host: HostNumber, command: &Command) -> bool
    ensures { result ≡ may_submit host command.now }
{
    matches!(
        &command.action,
        Action::CarryLock { .. } | Action::CarryClient(_)
    ) || (command.host == host && command.is_submittable())
}

/// Whether an idle host may be given the task.
fn may_be_given(config: Config, host: HostNumber, task: &Task) -> bool
    ensures { task_entry config host task.now ≡ brings_if result (Some (entries.Begin host task.now)) }
{
    match task {
        Task::Submit { command, tries } => {
            // Called for its contract only: the command's numbers are in their ranges.
            let _ = command.encode();
            if *tries == 0 {
                return false;
            }
            may_submit(host, command)
        }
        Task::Recover { tries } => 0 < *tries,
        Task::Look | Task::Beat => true,
        Task::Mark { slot } => *slot < config.slots(),
    }
}

/// Whether a call may be torn: it is a write, and the disk does not refuse it.
fn may_tear(is_write: bool, refusal: Option<DiskFault>) -> bool
    ensures { result ≡ (is_write && is_none refusal) }
{
    is_write && refusal.is_none()
}

/// What a host says now.
fn answer_of(host: HostNumber, core: &HostCore) -> Option<Said>
    ensures { result ≡ option_map (λ answer. record { host = host; answer = answer }) core.now.said }
{
    let answer = core.answer()?;
    Some(Said { host, answer })
}

fn fresh_disks(alloc: Global, config: Config) -> Result<Vec<SimDisk>, NoMemory>
    ensures { IfOk result (λ disks. disks.items ≡
        replicate config.disks (calm (fresh_disk (image_length cluster_version config.slots)))) }
{
    let count = usize::from(config.disks());
    let mut disks = Vec::with_capacity(alloc, count)?;
    for _ in 0..count {
        disks.push_reserved(SimDisk::new(alloc, config.image_length())?);
    }
    Ok(disks)
}

/// Stops hosts that run.
fn stop_all(hosts: &mut [Option<HostCore>])
    ensures { hosts.new ≡ replicate (length hosts.old) None }
{
    for host in hosts.iter_mut() {
        *host = None;
    }
}

fn stopped_hosts(alloc: Global) -> Result<Vec<Option<HostCore>>, NoMemory>
    ensures { IfOk result (λ hosts. hosts.items ≡ replicate HOSTS None) }
{
    let mut hosts = Vec::with_capacity(alloc, HOSTS)?;
    for _ in 0..HOSTS {
        hosts.push_reserved(None);
    }
    Ok(hosts)
}
