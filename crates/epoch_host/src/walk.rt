// A host on its way through the epochs.
ghost use Rattle.std.specs.Prelude.{[], ◌≡◌, ◌⊎◌, ◌≤◌, ◌<◌, true, false, Some, None, IfSome, IsNone, IsSome, IsTrue, OnOk, OnErr, if◌then◌else◌};
ghost use Rattle.torn_block.specs.Layout.{cluster_version};
ghost use Rattle.attempt.specs.Heard.{Fits};
ghost use Rattle.attempt.specs.Looking.{OnlyReads};
ghost use Rattle.attempt.specs.DeviceCalls.{IsWithin, call_of_need, device_answer, heard_of};
ghost use Rattle.standings.specs.Epochs.{whole_length};
ghost use Rattle.epoch_host.specs.declared.place.TheConstants.{EPOCHS};
ghost use Rattle.epoch_host.specs.Ending.{AreIdle, AreSilent, Ends, HasLearnedUpto, IsDone, IsElsewhere, IsGivenUp, IsMark, IsTableOf, IsThere, IsWhereItIs, Refuses, TableIsThere, TaskGoesOn, in_epochs, in_places};
ghost use Rattle.paxos_block.specs.Shape.{Shape};
ghost use Rattle.lock_table.specs.Apply.{table_after};
ghost use Rattle.lock_table.specs.Picture.{IsPictureOf};
ghost use Rattle.host.specs.Host.{Memory, Running};
ghost use Rattle.epoch_deeds.specs.Deeds.{Deeds, core_in};
ghost use Rattle.epoch_host.specs.Knowing.{KnowsBefore, before_of, length_of, prefix_of, where_is};
ghost use Rattle.epoch_host.specs.Leading.{CarriesOver, Enters, LeadsTo, WalksBy, WalksOn};
ghost use Rattle.epoch_host.specs.Staying.{learned_of, only_looks_for};
ghost use Rattle.epoch_host.specs.Submitting.{IsAsked};
ghost use Rattle.epoch_host.specs.Walking.{HasEnded, HasFew, IsAnswering, IsAtWork, IsFresh, IsLeftFor, IsResting, IsSameWalk, IsSound, IsStaying, LooksAlone, MayBegin, call_due, image_of};
ghost use Rattle.epoch_host.specs.Working.{GivesTries, HasRoom, IsSpelled};

use crate::answer::EpochAnswer;
use crate::carried::carried_over;
use crate::over::Over;
use crate::place::{EPOCHS, place_of, slot_in};
use crate::stay::{Arrival, Doing, Errand, Leave, Stay};
use crate::task::EpochTask;
use attempt::{Heard, Need, Refusal};
use coming::{Finding, Found};
use disk::NoMemory;
use host::{HostAnswer, Task};
use lock_command::{Command, HostNumber};
use lock_table::Table;
use paxos_block::Config;
use std::alloc::Global;

/// A task goes from one epoch to another, or looks for the newest one, at most so often. A host that is left behind as often as that is outrun.
const MOVES: u8 = 32;

/// Where a host is.
#[derive(Drop)]
pub enum Whereabouts {
    /// In no epoch.
    Nowhere,
    /// It looks for the newest one.
    Finds(Finding),
    In(Stay),
}

/// A host on its way through the epochs.
///
/// It takes memory where it comes to an epoch. If that is refused the task is given up, and the next one looks for the newest epoch.
#[derive(Drop)]
pub struct Walk {
    pub alloc: Global,
    pub host: HostNumber,
    pub config: Config,
    /// The host only looks, and comes to no epoch.
    pub only_looks: bool,
    pub is: Whereabouts,
    pub task: Option<EpochTask>,
    pub moves: u8,
    pub said: Option<EpochAnswer>,
}

impl Walk {
    /// A host that knows of no epoch.
    pub fn new(alloc: Global, host: HostNumber, config: Config, only_looks: bool) -> Walk
        ensures sound { IsSound result }
        ensures idle { result.task ≡ None }
        ensures of { (result.host ≡ host) × (result.config ≡ config) × (result.only_looks ≡ only_looks) }
        ensures leads { LeadsTo config host [] result }
    {
        Walk {
            alloc,
            host,
            config,
            only_looks,
            is: Whereabouts::Nowhere,
            task: None,
            moves: 0,
            said: None,
        }
    }

    /// The epoch where the host is, once the table is there.
    pub fn at_work(&self) -> Option<&Stay>
        requires { IsSound self.now }
        ensures at_work { IfSome result (λ stay. IsAtWork self.now stay.now) }
        ensures there { IsThere self.now → IsSome result }
    {
        let Whereabouts::In(stay) = &self.is else {
            return None;
        };
        if stay.errand.shows_table() && stay.is_whole() {
            Some(stay)
        } else {
            None
        }
    }

    /// The epoch where the host is.
    pub fn epoch(&self) -> Option<u64>
        ensures is { result ≡ where_is self.now }
        ensures known { (c : Shape) (h : _) (deeds : Deeds) → LeadsTo c h deeds self.now → IsWhereItIs c h deeds result }
    {
        match &self.is {
            Whereabouts::In(stay) => Some(stay.epoch),
            _ => None,
        }
    }

    /// The commands learned of that epoch: the first of it, none left out.
    pub fn prefix(&self) -> &[Command]
        ensures is { result.now ≡ prefix_of self.now }
        ensures known { (c : Shape) (h : _) (deeds : Deeds) → LeadsTo c h deeds self.now →
            (e : _) (memory : Memory) → core_in c h e deeds ≡ Running memory → result.now ≡ memory.learned }
    {
        match &self.is {
            Whereabouts::In(stay) => stay.core.prefix(),
            _ => &[],
        }
    }

    /// All commands of the epoch before, where the host came from there. Else none.
    pub fn before(&self) -> &[Command]
        ensures is { result.now ≡ before_of self.now }
        ensures known { (c : Shape) (h : _) (deeds : Deeds) → LeadsTo c h deeds self.now → KnowsBefore c h deeds result.now }
    {
        match &self.is {
            Whereabouts::In(stay) => stay.over.epoch_before(),
            _ => &[],
        }
    }

    /// All places below this one are learned. None where the table is not there.
    pub fn length(&self) -> Option<u64>
        requires { IsSound self.now }
        ensures is { IfSome result (λ upto. upto ≡ length_of self.now) }
        ensures only { IsSome result → IsThere self.now }
        ensures known { IfSome result (λ upto. (c : Shape) (h : _) (deeds : Deeds) → LeadsTo c h deeds self.now →
            (learned : _) × HasLearnedUpto c h deeds upto learned) }
        ensures there { IsThere self.now → IsSome result }
    {
        let stay = self.at_work()?;
        Some(place_of(self.config, stay.epoch, stay.length()))
    }

    /// The lock table after all commands below `length`.
    pub fn table(&self) -> Option<&Table>
        requires { IsSound self.now }
        ensures is { IfSome result (λ shown. IsPictureOf shown.now (table_after (prefix_of self.now))) }
        ensures only { IsSome result → IsThere self.now }
        ensures known { IfSome result (λ shown. (c : Shape) (h : _) (deeds : Deeds) → LeadsTo c h deeds self.now →
            (upto : _) × IsTableOf c h deeds upto shown.now) }
        ensures there { IsThere self.now → IsSome result }
    {
        Some(self.at_work()?.core.table())
    }

    /// Begins a task. If memory is refused it is given up.
    pub fn begin(&mut self, task: EpochTask) -> Result<(), NoMemory>
        requires sound { IsSound self.old }
        requires idle { self.old.task ≡ None }
        requires may { MayBegin self.old.host task }
        ensures sound { IsSound self.new }
        ensures same { IsSameWalk self.old self.new }
        ensures leads { WalksOn self.old self.new }
        ensures keeps { (self.new.task ≡ None) ⊎ (self.new.task ≡ Some task) }
        ensures told { OnOk result (self.new.task ≡ None → IsSome self.new.said) }
        ensures given_up { OnErr result (IsGivenUp self.new) }
        ensures ends { Ends (Some task) self.new }
        ensures there { TableIsThere self.new self.new.said }
        ensures silent { IsDone self.new.said → ⊥ }
        ensures rests { AreIdle self.old }
    {
        let task = &task;
        self.task = Some(*task);
        self.moves = 0;
        self.said = None;
        let went = self.set_out(task);
        self.settle(went)
    }

    /// The device call that is due, and its disk.
    pub fn call(&self) -> Need<'_>
        requires sound { IsSound self.now }
        requires busy { IsSome self.now.task }
        ensures due { call_of_need cluster_version result ≡ call_due self.now }
        ensures disk { result.disk < self.now.config.disks }
        ensures range { IsWithin cluster_version (whole_length (image_of self.now)) result.call }
        ensures reads { self.now.only_looks ≡ true → OnlyReads (call_due self.now).1 }
    {
        match &self.is {
            Whereabouts::Nowhere => unreachable!(),
            Whereabouts::Finds(finding) => finding.call(),
            Whereabouts::In(stay) => stay.call(),
        }
    }

    /// Hears the answer to the call that is due. If memory is refused the task is given up.
    pub fn hear(&mut self, heard: &Heard<'_>) -> Result<(), NoMemory>
        requires sound { IsSound self.old }
        requires busy { IsSome self.old.task }
        requires fits { Fits (call_due self.old).1 (heard_of cluster_version heard.now) }
        ensures sound { IsSound self.new }
        ensures same { IsSameWalk self.old self.new }
        ensures makes { WalksBy self.old self.new (call_due self.old) (device_answer heard.now) }
        ensures keeps { (self.new.task ≡ None) ⊎ (self.new.task ≡ self.old.task) }
        ensures told { OnOk result (self.new.task ≡ None → IsSome self.new.said) }
        ensures given_up { OnErr result (IsGivenUp self.new) }
        ensures ends { Ends self.old.task self.new }
        ensures there { TableIsThere self.new self.new.said }
        ensures fresh { IsDone self.new.said → AreSilent self.old }
    {
        let went = self.take(heard);
        self.settle(went)
    }

    // Hears the answer where the host is.
    fn take(&mut self, heard: &Heard<'_>) -> Result<(), NoMemory>
        requires sound { IsSound self.old }
        requires busy { IsSome self.old.task }
        requires fits { Fits (call_due self.old).1 (heard_of cluster_version heard.now) }
        ensures few { HasFew self.new }
        ensures sound { OnOk result (IsSound self.new) }
        ensures same { IsSameWalk self.old self.new }
        ensures makes { WalksBy self.old self.new (call_due self.old) (device_answer heard.now) }
        ensures task { OnOk result (TaskGoesOn (IsFresh self.old.is) self.old.task self.new) }
        ensures silent { OnErr result (self.new.said ≡ None) }
    {
        match &mut self.is {
            Whereabouts::Nowhere => unreachable!(),
            Whereabouts::Finds(finding) => {
                // Called for its contract only: the call is on a disk of the cluster.
                let _due = finding.call();
                finding.hear(heard);
                match finding.end() {
                    None => Ok(()),
                    Some(found) => self.take_found(found),
                }
            }
            Whereabouts::In(stay) => match stay.hear(heard) {
                None => Ok(()),
                Some(leave) => self.take_leave(leave),
            },
        }
    }

    // Where memory was refused the host is nowhere, and has no task.
    fn settle(&mut self, went: Result<(), NoMemory>) -> Result<(), NoMemory>
        requires few { HasFew self.old }
        requires sound { OnOk went (IsSound self.old) }
        requires silent { OnErr went (self.old.said ≡ None) }
        ensures sound { IsSound self.new }
        ensures same { IsSameWalk self.old self.new }
        ensures leads { WalksOn self.old self.new }
        ensures result { result ≡ went }
        ensures kept { OnOk result (self.new ≡ self.old) }
        ensures given_up { OnErr result (IsGivenUp self.new) }
    {
        if went.is_err() {
            self.is = Whereabouts::Nowhere;
            self.task = None;
        }
        went
    }

    // The task goes on where the host is.
    fn set_out(&mut self, task: &EpochTask) -> Result<(), NoMemory>
        requires few { HasFew self.old }
        requires task { self.old.task ≡ Some task.now }
        requires may { MayBegin self.old.host task.now }
        requires rests { IsResting self.old self.old.is }
        requires silent { self.old.said ≡ None }
        ensures sound { OnOk result (IsSound self.new) }
        ensures same { IsSameWalk self.old self.new }
        ensures leads { WalksOn self.old self.new }
        ensures task { OnOk result (TaskGoesOn ⊥ self.old.task self.new) }
        ensures silent { OnErr result (self.new.said ≡ None) }
    {
        if !self.may_do(task) {
            self.refuse(Refusal::BallotsSpent);
            return Ok(());
        }
        let Whereabouts::In(stay) = &mut self.is else {
            self.find();
            return Ok(());
        };
        let Some(own) = task_in(self.config, stay.epoch, task) else {
            self.refuse(Refusal::NotLearned);
            return Ok(());
        };
        match stay.begin(&own) {
            None => Ok(()),
            Some(leave) => self.take_leave(leave),
        }
    }

    // Whether the host does such tasks: one that only looks does nothing else, and has no ballot to take.
    fn may_do(&self, task: &EpochTask) -> bool
        ensures alone { result ≡ true → self.now.only_looks ≡ true → task.now ≡ EpochTask.Look }
        ensures other { result ≡ false → task.now ≡ EpochTask.Look → ⊥ }
    {
        !self.only_looks || matches!(task, EpochTask::Look)
    }

    // The host looks for the newest epoch. What it knew of another one is gone.
    fn find(&mut self)
        requires few { HasFew self.old }
        requires task { (task : _) × (self.old.task ≡ Some task) × MayBegin self.old.host task }
        requires silent { self.old.said ≡ None }
        requires looks { LooksAlone self.old.only_looks self.old.task }
        ensures sound { IsSound self.new }
        ensures same { IsSameWalk self.old self.new }
        ensures leads { WalksOn self.old self.new }
        ensures task { TaskGoesOn ⊥ self.old.task self.new }
    {
        self.is = Whereabouts::Nowhere;
        if let Some(EpochTask::Mark { .. }) = self.task {
            self.refuse(Refusal::NotLearned);
        } else if self.may_move() {
            self.is = Whereabouts::Finds(Finding::new(self.config.slots(), self.config.disks()));
        }
    }

    // Whether the task may move once more. Else it ends.
    fn may_move(&mut self) -> bool
        ensures is { self.new.is ≡ self.old.is }
        ensures task { self.new.task ≡ (if result then self.old.task else None) }
        ensures same { IsSameWalk self.old self.new }
        ensures leads { WalksOn self.old self.new }
        ensures said { IsTrue result → self.new.said ≡ self.old.said }
        ensures ends { result ≡ false → TaskGoesOn ⊥ self.old.task self.new }
    {
        if self.moves < MOVES {
            self.moves += 1;
            true
        } else {
            self.refuse(Refusal::Outrun);
            false
        }
    }

    // The search has ended.
    fn take_found(&mut self, found: Found) -> Result<(), NoMemory>
        requires few { HasFew self.old }
        requires task { (task : _) × (self.old.task ≡ Some task) × MayBegin self.old.host task }
        requires silent { self.old.said ≡ None }
        requires looks { LooksAlone self.old.only_looks self.old.task }
        requires finds { (search : _) × (self.old.is ≡ Whereabouts.Finds search) × HasEnded search found }
        ensures sound { OnOk result (IsSound self.new) }
        ensures same { IsSameWalk self.old self.new }
        ensures leads { WalksOn self.old self.new }
        ensures task { OnOk result (TaskGoesOn ⊥ self.old.task self.new) }
        ensures silent { OnErr result (self.new.said ≡ None) }
    {
        self.is = Whereabouts::Nowhere;
        let Found::Newest { order, .. } = found else {
            self.refuse(Refusal::NoMajority);
            return Ok(());
        };
        let errand = if self.only_looks {
            Errand::Looks
        } else {
            Errand::Works
        };
        self.enter(Arrival {
            epoch: order,
            errand,
            over: over_at_first(self.alloc, order),
        })
    }

    // The host has nothing more to do in its epoch, or cannot go on there.
    fn take_leave(&mut self, leave: Leave) -> Result<(), NoMemory>
        requires few { HasFew self.old }
        requires task { (task : _) × (self.old.task ≡ Some task) × MayBegin self.old.host task }
        requires silent { self.old.said ≡ None }
        requires looks { LooksAlone self.old.only_looks self.old.task }
        requires stays { (stay : _) × (self.old.is ≡ Whereabouts.In stay) × IsStaying self.old stay × IsLeftFor self.old.task stay leave }
        ensures sound { OnOk result (IsSound self.new) }
        ensures same { IsSameWalk self.old self.new }
        ensures leads { WalksOn self.old self.new }
        ensures task { OnOk result (TaskGoesOn (IsAnswering leave) self.old.task self.new) }
        ensures silent { OnErr result (self.new.said ≡ None) }
    {
        match leave {
            Leave::Answered(said) => {
                self.say(said);
                Ok(())
            }
            Leave::NotLearned => {
                self.refuse(Refusal::NotLearned);
                Ok(())
            }
            Leave::Full => self.go_on(),
            Leave::NeedsBefore => self.go_back(),
            Leave::Passed => {
                self.find();
                Ok(())
            }
        }
    }

    // The task has ended so in the epoch where the host is.
    fn say(&mut self, said: HostAnswer)
        requires few { HasFew self.old }
        requires stays { (stay : _) × (self.old.is ≡ Whereabouts.In stay) × IsStaying self.old stay × IsLeftFor self.old.task stay (Leave.Answered said) }
        ensures sound { IsSound self.new }
        ensures same { IsSameWalk self.old self.new }
        ensures leads { WalksOn self.old self.new }
        ensures task { TaskGoesOn (IsAnswering (Leave.Answered said)) self.old.task self.new }
    {
        let Whereabouts::In(stay) = &self.is else {
            unreachable!()
        };
        let epoch = stay.epoch;
        self.said = Some(answer_in(self.config, epoch, said));
        self.task = None;
    }

    // The task ends without an answer of a core.
    fn refuse(&mut self, refusal: Refusal)
        requires cause { Refuses self.old.task refusal self.old }
        ensures is { self.new.is ≡ self.old.is }
        ensures idle { self.new.task ≡ None }
        ensures same { IsSameWalk self.old self.new }
        ensures leads { WalksOn self.old self.new }
        ensures task { TaskGoesOn ⊥ self.old.task self.new }
    {
        self.said = Some(EpochAnswer::Refused(refusal));
        self.task = None;
    }

    // The epoch is learned whole. Its table is carried over into the next one.
    fn go_on(&mut self) -> Result<(), NoMemory>
        requires few { HasFew self.old }
        requires task { (task : _) × (self.old.task ≡ Some task) × MayBegin self.old.host task }
        requires silent { self.old.said ≡ None }
        requires comes { self.old.only_looks ≡ false }
        requires stays { (stay : _) × (self.old.is ≡ Whereabouts.In stay) × IsStaying self.old stay × (stay.doing ≡ Doing.Nothing) × (stay.config.slots ≤ learned_of stay) }
        ensures sound { OnOk result (IsSound self.new) }
        ensures same { IsSameWalk self.old self.new }
        ensures leads { WalksOn self.old self.new }
        ensures task { OnOk result (TaskGoesOn ⊥ self.old.task self.new) }
        ensures silent { OnErr result (self.new.said ≡ None) }
    {
        let Whereabouts::In(stay) = &self.is else {
            unreachable!()
        };
        let epoch = stay.epoch + 1;
        let values = carried_over(self.alloc, stay.core.table())?;
        let mut before = Vec::new(self.alloc);
        before.extend_from_slice(stay.core.prefix())?;
        if usize::from(self.config.slots()) <= values.len() {
            // There would be no slot for anything else.
            self.refuse(Refusal::LogFull);
            return Ok(());
        }
        self.enter(Arrival {
            epoch,
            errand: Errand::Works,
            over: Over::Known { values, before },
        })
    }

    // There is this epoch, so the one before is full, and tells what carries the table over into this one, and the table.
    fn go_back(&mut self) -> Result<(), NoMemory>
        requires few { HasFew self.old }
        requires task { (task : _) × (self.old.task ≡ Some task) × MayBegin self.old.host task }
        requires silent { self.old.said ≡ None }
        requires looks { LooksAlone self.old.only_looks self.old.task }
        requires stays { (stay : _) × (self.old.is ≡ Whereabouts.In stay) × IsStaying self.old stay × (stay.doing ≡ Doing.Nothing) }
        ensures sound { OnOk result (IsSound self.new) }
        ensures same { IsSameWalk self.old self.new }
        ensures leads { WalksOn self.old self.new }
        ensures task { OnOk result (TaskGoesOn ⊥ self.old.task self.new) }
        ensures silent { OnErr result (self.new.said ≡ None) }
    {
        let Whereabouts::In(stay) = &self.is else {
            unreachable!()
        };
        let epoch = stay.epoch.saturating_sub(1);
        let errand = if self.only_looks {
            Errand::LooksBack
        } else {
            Errand::LearnsWhole
        };
        self.enter(Arrival {
            epoch,
            errand,
            over: Over::Unknown,
        })
    }

    // The task goes on in another epoch. What the host knew of the one where it was is gone first.
    fn enter(&mut self, arrival: Arrival) -> Result<(), NoMemory>
        requires few { HasFew self.old }
        requires task { (task : _) × (self.old.task ≡ Some task) × MayBegin self.old.host task }
        requires silent { self.old.said ≡ None }
        requires looks { LooksAlone self.old.only_looks self.old.task }
        requires errand { only_looks_for arrival.errand ≡ self.old.only_looks }
        requires rests { IsResting self.old self.old.is }
        ensures sound { OnOk result (IsSound self.new) }
        ensures same { IsSameWalk self.old self.new }
        ensures enters { Enters arrival self.old self.new }
        ensures task { OnOk result (TaskGoesOn ⊥ self.old.task self.new) }
        ensures silent { OnErr result (self.new.said ≡ None) }
    {
        let Some(own) = self.own_task() else {
            // A marking moves to no other epoch. What is not learned where the host is, is learned nowhere.
            self.find();
            return Ok(());
        };
        if EPOCHS <= arrival.epoch {
            self.refuse(Refusal::LogFull);
            return Ok(());
        }
        if !self.may_move() {
            return Ok(());
        }
        self.is = Whereabouts::Nowhere;
        let stay = Stay::start(self.alloc, self.host, self.config, arrival, own)?;
        self.is = Whereabouts::In(stay);
        Ok(())
    }

    // The task under way, where it is the same in every epoch.
    fn own_task(&self) -> Option<Task>
        requires task { (task : _) × (self.now.task ≡ Some task) × MayBegin self.now.host task }
        ensures given { IfSome result (λ own. GivesTries own × IsAsked self.now.host own × IsSpelled own) }
        ensures room { IfSome result (λ own. (slots : _) → 1 ≤ slots → HasRoom own 0 slots) }
        ensures same { IfSome result (λ own. (c : Shape) (e : _) → self.now.task ≡ Some (in_epochs c e own)) }
        ensures look { IfSome result (λ own. LooksAlone true self.now.task → own ≡ Task.Look) }
    {
        match &self.task {
            Some(task) => apart_from_marks(task),
            None => unreachable!(),
        }
    }
}

// What carries the table over into an epoch that was found. Into the first one nothing does.
fn over_at_first(alloc: Global, epoch: u64) -> Over
    ensures { (c : _) (h : _) (deeds : _) → CarriesOver c h epoch deeds result }
{
    if epoch == 0 {
        Over::Known {
            values: Vec::new(alloc),
            before: Vec::new(alloc),
        }
    } else {
        Over::Unknown
    }
}

// A task as it is in an epoch. None for the mark of a place that is not there.
fn task_in(config: Config, epoch: u64, task: &EpochTask) -> Option<Task>
    requires { epoch ≤ EPOCHS }
    ensures given { IfSome result (λ own. (h : _) → MayBegin h task.now → GivesTries own × IsAsked h own × IsSpelled own) }
    ensures slot { IfSome result (λ own. (slot : _) → own ≡ Task.Mark slot → slot < config.slots) }
    ensures same { IfSome result (λ own. task.now ≡ in_epochs config epoch own) }
    ensures look { IfSome result (λ own. task.now ≡ EpochTask.Look → own ≡ Task.Look) }
    ensures none { IsNone result → IsElsewhere config epoch task.now }
{
    match task {
        EpochTask::Mark { place } => Some(Task::Mark {
            slot: slot_in(config, epoch, *place)?,
        }),
        _ => apart_from_marks(task),
    }
}

// A task that is the same in every epoch. None for a marking.
#[tactic(auto, using(crate::proofs::Spelling::reads_back))]
fn apart_from_marks(task: &EpochTask) -> Option<Task>
    ensures given { IfSome result (λ own. (h : _) → MayBegin h task.now → GivesTries own × IsAsked h own × IsSpelled own) }
    ensures room { IfSome result (λ own. (slots : _) → 1 ≤ slots → HasRoom own 0 slots) }
    ensures same { IfSome result (λ own. (c : Shape) (e : _) → task.now ≡ in_epochs c e own) }
    ensures look { IfSome result (λ own. task.now ≡ EpochTask.Look → own ≡ Task.Look) }
    ensures none { IsNone result → IsMark task.now }
{
    match task {
        EpochTask::Submit { command, tries } => {
            // Called for its contract only: the command's numbers are in their ranges.
            let _spelled = command.encode();
            Some(Task::Submit {
                command: *command,
                tries: *tries,
            })
        }
        EpochTask::Recover { tries } => Some(Task::Recover { tries: *tries }),
        EpochTask::Look => Some(Task::Look),
        EpochTask::Beat => Some(Task::Beat),
        EpochTask::Mark { .. } => None,
    }
}

// An answer, with places in place of the slots of an epoch.
fn answer_in(config: Config, epoch: u64, said: HostAnswer) -> EpochAnswer
    requires { epoch ≤ EPOCHS }
    ensures { result ≡ in_places config epoch said }
{
    match said {
        HostAnswer::Ack { slot, reply } => EpochAnswer::Ack {
            place: place_of(config, epoch, slot),
            reply,
        },
        HostAnswer::Recovered { length } => EpochAnswer::Recovered {
            length: place_of(config, epoch, length),
        },
        HostAnswer::Looked { length } => EpochAnswer::Looked {
            length: place_of(config, epoch, length),
        },
        HostAnswer::Beaten { host } => EpochAnswer::Beaten { host },
        HostAnswer::Marked { count } => EpochAnswer::Marked { count },
        HostAnswer::Refused(refusal) => EpochAnswer::Refused(refusal),
    }
}
