ghost use Rattle.std.specs.Prelude.{◌≡◌, ◌≤◌, ◌+◌, ◌-◌, ◌*◌, ℕ, true, Some, IfOk, IfErr, is_some, length, slice_get};
ghost use Rattle.torn_block.specs.Layout.{cluster_version};
ghost use Rattle.paxos_block.specs.Places.{image_length};
ghost use Rattle.lock_command.specs.Command.{is_submittable, spelling};
ghost use Rattle.lock_command.specs.Reading.{decoded};
ghost use Rattle.lock_table.specs.Apply.{table_after};
ghost use Rattle.lock_table.specs.Picture.{IsPictureOf};
ghost use Rattle.host.specs.Host.{Submitting, Recovering, fresh, starts};
ghost use Rattle.host.specs.Kept.{Kept, LeadsTo, MayBegin};
ghost use Rattle.dlm_images.specs.Operations.{HasCarriedOut, HasOperated, HasMarked, HasLooked, AreReads, IsAcknowledged};
ghost use Rattle.dlm_images.specs.Tasks.{MayBeAsked, EndsTask, StaysWithin};

use crate::operation::drive;
use disk::{Disk, NoMemory};
use host::{Config, HostAnswer, HostCore, Refusal, Task};
use lock_command::{Command, HostNumber};
use lock_table::{Reply, Table};
use std::alloc::Global;
use std::marker::Model;

/// The slot of an acknowledged command, and what the lock table replied to it there.
#[derive(Clone, Copy, Debug, PartialEq, Eq)]
pub struct Acknowledgement {
    pub slot: u16,
    pub reply: Reply,
}

/// A running host and its disks. What it has learned stays between its operations, so each begins where the last one ended.
///
/// No call but `start` takes memory.
#[derive(Drop)]
pub struct DiskHost<D: Disk> {
    core: HostCore,
    disks: Vec<D>,
}

impl<D: Disk> Model for DiskHost<D> {
    ghost use Rattle.dlm_images.specs.Operations.{Rests, Standing};

    ghost Value = { Standing D };

    ghost view = { λ h. record { core = h.core; disks = h.disks.items } };

    ghost invariant = { λ h. Rests (λ d. (D.device d).size) (record { core = h.core; disks = h.disks.items }) };
}

impl<D: Disk> DiskHost<D> {
    /// A host that has learned nothing yet, over these disks.
    pub fn start(
        alloc: Global,
        host: HostNumber,
        config: Config,
        disks: Vec<D>,
    ) -> Result<DiskHost<D>, NoMemory>
    where
        D: Drop,
        requires as_many { length disks.items ≡ config.disks }
        requires large { (k : ℕ) (d : D) → slice_get disks.items k ≡ Some d →
            image_length cluster_version config.slots ≤ (D.device d).size }
        ensures fresh { IfOk result (λ started. LeadsTo config host fresh started.core) }
        ensures disks { IfOk result (λ started. started.disks ≡ disks.items) }
    {
        let core = HostCore::start(alloc, host, config)?;
        Ok(DiskHost { core, disks })
    }

    /// The host's number.
    pub fn host(&self) -> HostNumber
        ensures { result ≡ self.now.core.learner.host }
    {
        self.core.host()
    }

    /// The commands learned: the first of the log, none left out.
    pub fn prefix(&self) -> &[Command]
        ensures { result.now ≡ self.now.core.prefix }
    {
        self.core.prefix()
    }

    /// How many commands are learned.
    pub fn learned(&self) -> u16
        ensures { result ≡ length self.now.core.prefix }
    {
        self.core.prefix().len() as u16
    }

    /// The lock table after these commands.
    pub fn table(&self) -> &Table
        ensures { IsPictureOf result.now (table_after self.now.core.prefix) }
    {
        self.core.table()
    }

    /// The disks that it worked over. The host is no more; another one can start over them.
    pub fn into_disks(self) -> Vec<D>
        ensures disks { result.items ≡ self.disks }
        ensures as_many { length result.items ≡ self.core.learner.shape.disks }
        ensures large { (k : ℕ) (d : D) → slice_get result.items k ≡ Some d →
            image_length cluster_version self.core.learner.shape.slots ≤ (D.device d).size }
    {
        self.disks
    }

    /// Puts a command of this host, which a client may ask for, into the log. Up to `tries` attempts may be outrun, the last of which ends the submission.
    #[tactic(auto, using(crate::proofs::Ending::reads_back))]
    pub fn submit(&mut self, command: Command, tries: u8) -> Result<Acknowledgement, Refusal>
        requires host { command.host ≡ self.old.core.learner.host }
        requires asked { is_submittable command ≡ true }
        requires tries { 1 ≤ tries }
        ensures operated { HasOperated D.gives (Submitting command) tries self.old self.new }
        ensures same { self.new.core.learner.host ≡ self.old.core.learner.host }
        // Its bytes are read as this command, by every host that learns it.
        ensures readable { decoded (spelling command) ≡ Some command }
        ensures acknowledged { IfOk result (λ done. IsAcknowledged command done.slot done.reply self.new.core.prefix) }
        ensures told { IfOk result (λ done. self.new.core.said ≡ Some (HostAnswer.Ack done.slot done.reply)) }
        ensures refused { IfErr result (λ refusal. self.new.core.said ≡ Some (HostAnswer.Refused refusal)) }
    {
        // Called for its contract only: the command's numbers are in their ranges.
        let _spelled = command.encode();
        match self.carry_out(Task::Submit { command, tries }) {
            HostAnswer::Ack { slot, reply } => Ok(Acknowledgement { slot, reply }),
            HostAnswer::Refused(refusal) => Err(refusal),
            _ => unreachable!(),
        }
    }

    /// Marks a slot that this host has learned, so that others learn it in one reading, and tells on how many disks its block is
    /// marked then.
    pub fn mark(&mut self, slot: u16) -> Result<u8, Refusal>
        ensures marked { HasMarked D.gives slot self.old self.new }
        ensures kept { self.new.core.prefix ≡ self.old.core.prefix }
        ensures calls { (done : HasMarked D.gives slot self.old self.new) → length done.made ≤ 9 * length self.old.disks }
        ensures counted { IfOk result (λ count. self.new.core.said ≡ Some (HostAnswer.Marked count)) }
        ensures refused { IfErr result (λ refusal. self.new.core.said ≡ Some (HostAnswer.Refused refusal)) }
    {
        match self.carry_out(Task::Mark { slot }) {
            HostAnswer::Marked { count } => Ok(count),
            HostAnswer::Refused(refusal) => Err(refusal),
            _ => unreachable!(),
        }
    }

    /// Learns all that is in the log, and tells how much that is. Up to `tries` attempts may be outrun, the last of which ends
    /// the recovery.
    pub fn recover(&mut self, tries: u8) -> Result<u16, Refusal>
        requires { 1 ≤ tries }
        ensures operated { HasOperated D.gives Recovering tries self.old self.new }
        ensures keeps { length self.old.core.prefix ≤ length self.new.core.prefix }
        ensures calls { let learned = length self.new.core.prefix - length self.old.core.prefix in
            (done : HasOperated D.gives Recovering tries self.old self.new) →
            length done.made ≤ 17 * length self.old.disks * (learned + tries) }
        ensures learned { IfOk result (λ count. count ≡ length self.new.core.prefix) }
        ensures told { IfOk result (λ count. self.new.core.said ≡ Some (HostAnswer.Recovered count)) }
        ensures refused { IfErr result (λ refusal. self.new.core.said ≡ Some (HostAnswer.Refused refusal)) }
    {
        match self.carry_out(Task::Recover { tries }) {
            HostAnswer::Recovered { length } => Ok(length),
            HostAnswer::Refused(refusal) => Err(refusal),
            _ => unreachable!(),
        }
    }

    /// Looks at slot after slot, and learns from each the command that a mark tells. It ends at the first slot where it finds no mark, and tells how
    /// many commands are learned then. It syncs and writes nothing, and outruns nobody; what was acknowledged and not marked is not found.
    pub fn look(&mut self) -> Result<u16, Refusal>
        ensures looked { HasLooked D.gives self.old self.new }
        ensures same { self.new.core.learner.host ≡ self.old.core.learner.host }
        ensures reads { (done : HasLooked D.gives self.old self.new) → AreReads done.made }
        ensures keeps { length self.old.core.prefix ≤ length self.new.core.prefix }
        ensures calls { let learned = length self.new.core.prefix - length self.old.core.prefix in
            (done : HasLooked D.gives self.old self.new) →
            length done.made ≤ 2 * length self.old.disks * (learned + 1) }
        ensures learned { IfOk result (λ count. count ≡ length self.new.core.prefix) }
        ensures told { IfOk result (λ count. self.new.core.said ≡ Some (HostAnswer.Looked count)) }
        ensures refused { IfErr result (λ refusal. self.new.core.said ≡ Some (HostAnswer.Refused refusal)) }
    {
        match self.carry_out(Task::Look) {
            HostAnswer::Looked { length } => Ok(length),
            HostAnswer::Refused(refusal) => Err(refusal),
            _ => unreachable!(),
        }
    }

    /// Carries a task out, and tells how it ended.
    fn carry_out(&mut self, task: Task) -> HostAnswer
        requires may { MayBegin self.old.core task }
        requires asked { MayBeAsked task }
        ensures done { HasCarriedOut D.gives (λ c m. starts c m task) self.old self.new }
        ensures same { self.new.core.learner.host ≡ self.old.core.learner.host }
        ensures ends { EndsTask task self.new.core.prefix (Some result) }
        ensures said { self.new.core.said ≡ Some result }
        ensures within { StaysWithin D.gives task self.old self.new }
    {
        self.core.begin(task);
        drive(&mut self.core, &mut self.disks);
        answered(&self.core)
    }
}

/// What the host has said.
fn answered(core: &HostCore) -> HostAnswer
    requires { is_some core.now.said ≡ true }
    ensures { core.now.said ≡ Some result }
{
    match core.answer() {
        Some(answer) => answer,
        None => unreachable!(),
    }
}
