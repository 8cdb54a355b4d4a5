ghost use Rattle.std.specs.Prelude.{[], ◌≡◌, ◌≤◌, ℕ, true, Some, IfOk, IfErr, IfSome, IsSome, OnOk, length, slice_get};
ghost use Rattle.lock_command.specs.Command.{is_submittable};
ghost use Rattle.paxos_block.specs.Shape.{Shape};
ghost use Rattle.epoch_deeds.specs.Deeds.{Deeds};
ghost use Rattle.epoch_host.specs.Ending.{HasLearnedUpto, IsTableOf, IsThere, TableIsThere};
ghost use Rattle.epoch_host.specs.Leading.{LeadsTo};
ghost use Rattle.epoch_host.specs.Walking.{IsSame, MayBegin};
ghost use Rattle.epoch_images.specs.Marking.{first_of};
ghost use Rattle.epoch_images.specs.Working.{HasWorked, MayEnd, room_of, said_by};

use crate::fault::EpochFault;
use crate::operation::drive;
use disk::Disk;
use epoch_host::{EpochAnswer, EpochHost, EpochTask};
use lock_command::{Command, HostNumber};
use lock_table::{Reply, Table};
use paxos_block::Config;
use std::alloc::Global;
use std::marker::Model;
use torn_block::DISKS;

/// The place of an acknowledged command among all slots of all epochs, and what the lock table replied to it there.
#[derive(Clone, Copy, Debug, PartialEq, Eq)]
pub struct Placed {
    pub place: u64,
    pub reply: Reply,
}

/// A running host over all epochs, and its disks. What it has learned stays between its operations, so each begins where the last one ended.
///
/// It takes memory where it comes to an epoch.
#[derive(Drop)]
pub struct EpochDiskHost<D: Disk> {
    host: EpochHost,
    disks: Vec<D>,
    firsts: [u64; DISKS as usize],
    alloc: Global,
    config: Config,
}

impl<D: Disk> Model for EpochDiskHost<D> {
    ghost use Rattle.epoch_images.specs.Working.{Rests, Standing};

    ghost Value = { Standing D };

    ghost view = { λ h. record { host = h.host; disks = h.disks.items; firsts = h.firsts } };

    ghost invariant = { λ h. Rests (λ d. (D.device d).size) h.config (record { host = h.host; disks = h.disks.items; firsts = h.firsts }) };
}

impl<D: Disk> EpochDiskHost<D> {
    /// A host that knows of no epoch yet, over these disks. Each takes part from the epoch on that is told here by its number; before, each call on it fails unmade.
    pub fn start(
        alloc: Global,
        host: HostNumber,
        config: Config,
        firsts: [u64; DISKS as usize],
        disks: Vec<D>,
    ) -> EpochDiskHost<D>
    where
        D: Drop,
        requires as_many { length disks.items ≡ config.disks }
        requires large { (k : ℕ) (d : D) → slice_get disks.items k ≡ Some d → room_of config ≤ (D.device d).size }
        ensures fresh { LeadsTo config host [] result.host }
        ensures disks { result.disks ≡ disks.items }
        ensures firsts { result.firsts ≡ firsts }
        ensures of { (result.host.host ≡ host) × (result.host.config ≡ config) }
    {
        EpochDiskHost {
            host: EpochHost::new(alloc, host, config),
            disks,
            firsts,
            alloc,
            config,
        }
    }

    /// The host's number.
    pub fn host(&self) -> HostNumber
        ensures { result ≡ self.now.host.host }
    {
        self.host.host()
    }

    /// All places below this one are learned. None where the table is not there.
    pub fn length(&self) -> Option<u64>
        ensures known { IfSome result (λ upto. (c : Shape) (h : _) (deeds : Deeds) → LeadsTo c h deeds self.now.host →
            (learned : _) × HasLearnedUpto c h deeds upto learned) }
        ensures there { IsThere self.now.host → IsSome result }
    {
        self.host.length()
    }

    /// The lock table after all commands below `length`.
    pub fn table(&self) -> Option<&Table>
        ensures known { IfSome result (λ shown. (c : Shape) (h : _) (deeds : Deeds) → LeadsTo c h deeds self.now.host →
            (upto : _) × IsTableOf c h deeds upto shown.now) }
        ensures there { IsThere self.now.host → IsSome result }
    {
        self.host.table()
    }

    /// The disks that it worked over. The host is no more; another one can start over them.
    pub fn into_disks(self) -> Vec<D>
        ensures disks { result.items ≡ self.disks }
        ensures as_many { length result.items ≡ self.host.config.disks }
        ensures large { (k : ℕ) (d : D) → slice_get result.items k ≡ Some d → room_of self.host.config ≤ (D.device d).size }
    {
        self.disks
    }

    /// Puts a command of this host, which a client may ask for, into the log. Up to `tries` attempts on a slot may be outrun, the last of which ends the
    /// submission.
    pub fn submit(&mut self, command: Command, tries: u8) -> Result<Placed, EpochFault>
        requires host { command.host ≡ self.old.host.host }
        requires asked { is_submittable command ≡ true }
        requires tries { 1 ≤ tries }
        ensures acknowledged { IfOk result (λ done.
            HasWorked D.gives (EpochTask.Submit command tries) (Some (EpochAnswer.Ack done.place done.reply)) self.old self.new) }
        ensures refused { IfErr result (λ fault. HasWorked D.gives (EpochTask.Submit command tries) (said_by fault) self.old self.new) }
        ensures same { IsSame self.old.host self.new.host }
    {
        match self.carry_out(EpochTask::Submit { command, tries })? {
            EpochAnswer::Ack { place, reply } => Ok(Placed { place, reply }),
            EpochAnswer::Refused(refusal) => Err(EpochFault::Refused(refusal)),
            _ => unreachable!(),
        }
    }

    /// Learns all that is in the log, and tells how long it is. Up to `tries` attempts on a slot may be outrun, the last of which ends the recovery.
    pub fn recover(&mut self, tries: u8) -> Result<u64, EpochFault>
        requires { 1 ≤ tries }
        ensures learned { IfOk result (λ upto. HasWorked D.gives (EpochTask.Recover tries) (Some (EpochAnswer.Recovered upto)) self.old self.new) }
        ensures refused { IfErr result (λ fault. HasWorked D.gives (EpochTask.Recover tries) (said_by fault) self.old self.new) }
        ensures there { OnOk result (IsThere self.new.host) }
        ensures same { IsSame self.old.host self.new.host }
    {
        match self.carry_out(EpochTask::Recover { tries })? {
            EpochAnswer::Recovered { length } => Ok(length),
            EpochAnswer::Refused(refusal) => Err(EpochFault::Refused(refusal)),
            _ => unreachable!(),
        }
    }

    /// Learns the commands that marks tell, up to the first place where it finds no mark, and tells how many places are below that one. What was acknowledged
    /// and not marked is not found.
    pub fn look(&mut self) -> Result<u64, EpochFault>
        ensures learned { IfOk result (λ upto. HasWorked D.gives EpochTask.Look (Some (EpochAnswer.Looked upto)) self.old self.new) }
        ensures refused { IfErr result (λ fault. HasWorked D.gives EpochTask.Look (said_by fault) self.old self.new) }
        ensures there { OnOk result (IsThere self.new.host) }
        ensures same { IsSame self.old.host self.new.host }
    {
        match self.carry_out(EpochTask::Look)? {
            EpochAnswer::Looked { length } => Ok(length),
            EpochAnswer::Refused(refusal) => Err(EpochFault::Refused(refusal)),
            _ => unreachable!(),
        }
    }

    /// Marks a place that this host has learned in the epoch where it is, so that others learn it in one reading. Tells on how many disks its block is
    /// marked then.
    pub fn mark(&mut self, place: u64) -> Result<u8, EpochFault>
        ensures counted { IfOk result (λ count. HasWorked D.gives (EpochTask.Mark place) (Some (EpochAnswer.Marked count)) self.old self.new) }
        ensures refused { IfErr result (λ fault. HasWorked D.gives (EpochTask.Mark place) (said_by fault) self.old self.new) }
        ensures same { IsSame self.old.host self.new.host }
    {
        match self.carry_out(EpochTask::Mark { place })? {
            EpochAnswer::Marked { count } => Ok(count),
            EpochAnswer::Refused(refusal) => Err(EpochFault::Refused(refusal)),
            _ => unreachable!(),
        }
    }

    /// The first place of the epoch in which this place is.
    pub(crate) fn first_of(&self, place: u64) -> u64
        ensures { result ≡ first_of self.now.host.config place }
    {
        place - place % u64::from(self.config.slots())
    }

    /// Carries a task out, and tells how it ended.
    fn carry_out(&mut self, task: EpochTask) -> Result<EpochAnswer, EpochFault>
        requires { MayBegin self.old.host.host task }
        ensures ended { IfOk result (λ answer. HasWorked D.gives task (Some answer) self.old self.new) }
        ensures fits { IfOk result (MayEnd task) }
        ensures there { IfOk result (λ answer. TableIsThere self.new.host (Some answer)) }
        ensures refused { IfErr result (λ fault. HasWorked D.gives task (said_by fault) self.old self.new) }
        ensures same { IsSame self.old.host self.new.host }
    {
        drive(
            &mut self.host,
            &mut self.disks,
            &self.firsts,
            self.alloc,
            self.config,
            task,
        )
    }
}
