// A host in one epoch.
ghost use Rattle.std.specs.Prelude.{◌≡◌, ◌≤◌, ◌<◌, ◌↔◌, ℕ, true, false, Some, IfOk, IfSome, IsNone, IsTrue};
ghost use Rattle.torn_block.specs.Layout.{cluster_version};
ghost use Rattle.attempt.specs.Heard.{Fits};
ghost use Rattle.attempt.specs.Looking.{OnlyReads};
ghost use Rattle.torn_block.specs.declared.layout.TheConstants.{DISKS, HOSTS};
ghost use Rattle.paxos_block.specs.Places.{image_length};
ghost use Rattle.attempt.specs.DeviceCalls.{IsWithin, call_of_need, device_answer, device_call_of, heard_of};
ghost use Rattle.host.specs.Kept as cores;
ghost use Rattle.host.specs.Kept.{is_idle};
ghost use Rattle.window.specs.Calls.{IsOwn};
ghost use Rattle.standings.specs.Epochs.{whole_length};
ghost use Rattle.lock_command.specs.Command.{spelling};
ghost use Rattle.lock_command.specs.Reading.{decoded};
ghost use Rattle.paxos_block.specs.Shape.{Shape};
ghost use Rattle.host.specs.Host.{Memory, Submitting, next_in};
ghost use Rattle.epoch_host.specs.declared.place.TheConstants.{EPOCHS};
ghost use Rattle.epoch_host.specs.Answering.{IsFor, SaysFor};
ghost use Rattle.epoch_host.specs.Leading.{GoesOnIn, IsReadyFor, MakesIn, StartsIn};
ghost use Rattle.epoch_host.specs.Staying.{CoreWorks, IsBusy, IsFew, IsSame, IsSoLeft, IsSound, call_due, image_of, learned_of, only_looks_for, shows_table_for};
ghost use Rattle.epoch_host.specs.Submitting.{IsAsked, IsDueIn, MayCarryOut, Stands, StaysAt};
ghost use Rattle.epoch_host.specs.Working.{GivesTries, HasRoom, IsAnswer, IsSpelled, IsWhole, IsWorking};

use crate::over::Over;
use attempt::{DeviceCall, Heard, Need, Refusal};
use coming::{Coming, End};
use disk::NoMemory;
use host::{HostAnswer, HostCore, Task};
use lock_command::{Command, HostNumber};
use paxos_block::Config;
use rounds::beats::PLACES;
use standings::Epoch;
use std::alloc::Global;
use torn_block::{ClusterLayout, Layout};
use window::Window;

/// Where a task says nothing of tries, so many attempts on a slot may be outrun.
const TRIES: u8 = 8;

/// What a host is in an epoch for.
#[derive(Clone, Copy, Debug, PartialEq, Eq)]
pub enum Errand {
    /// To carry out its tasks.
    Works,
    /// To learn the epoch whole: there is a later one, and what carries the table over into it is not known.
    LearnsWhole,
    /// To look, and to do nothing else.
    Looks,
    /// So, and there is a later one, which does not tell the table yet.
    LooksBack,
}

impl Errand {
    /// Whether the host only looks, so that it does not come to the epoch.
    pub fn only_looks(self) -> bool
        ensures { result ≡ only_looks_for self }
    {
        match self {
            Errand::Works | Errand::LearnsWhole => false,
            Errand::Looks | Errand::LooksBack => true,
        }
    }

    /// Whether the host shows the table of the epoch, once that is whole.
    pub fn shows_table(self) -> bool
        ensures { result ≡ shows_table_for self }
    {
        match self {
            Errand::Works | Errand::Looks | Errand::LooksBack => true,
            Errand::LearnsWhole => false,
        }
    }
}

/// To which epoch a host comes, and what for.
#[derive(Drop)]
pub struct Arrival {
    pub epoch: u64,
    pub errand: Errand,
    pub over: Over,
}

/// Why a host has nothing more to do in an epoch.
#[derive(Clone, Copy, Debug, PartialEq, Eq)]
pub enum Leave {
    /// The task has ended, as the core says.
    Answered(HostAnswer),
    /// The slot that is to be marked is not learned here. Or the host only looks, and the table is not told here, nor in the next epoch.
    NotLearned,
    /// All slots are learned, so the table is final.
    Full,
    /// There may be a later epoch than the next one, or than the one where a host only looks.
    Passed,
    /// The table cannot be known here: the epoch before has to be learned.
    NeedsBefore,
}

/// What the core does.
#[derive(Clone, Copy, Debug, PartialEq, Eq)]
pub enum Work {
    /// It learns, or carries the task out.
    Goes,
    /// It submits the command that is due in this slot.
    Carries { slot: u16 },
    /// It marks a slot that carries a part of the table over.
    Marks,
    /// It looks, and does nothing else.
    Looks,
}

/// What is under way.
#[derive(Drop)]
pub enum Doing {
    Nothing,
    /// The host comes to the epoch on this disk.
    Comes { disk: u8, coming: Coming },
    Works(Work),
    /// The core makes no call any more.
    Leaves,
}

/// A host in one epoch: its core works on the epoch's image, and between the core and the disks is the window.
///
/// No call but `start` takes memory.
#[derive(Drop)]
pub struct Stay {
    pub host: HostNumber,
    pub config: Config,
    pub epoch: u64,
    pub errand: Errand,
    pub over: Over,
    pub core: HostCore,
    pub window: Window,
    /// The disks on which the host has come to the epoch. One that only looks comes on none.
    pub come: [bool; PLACES],
    pub doing: Doing,
    pub task: Task,
    /// Up to so many attempts of what goes before the task may be outrun on a slot.
    pub tries: u8,
}

impl Stay {
    /// A host that has come to the epoch on no disk yet. It is there for a task, and comes to the epoch on the first disk. One that only looks begins to.
    pub fn start(
        alloc: Global,
        host: HostNumber,
        config: Config,
        arrival: Arrival,
        task: Task,
    ) -> Result<Stay, NoMemory>
        requires epoch { arrival.epoch ≤ EPOCHS }
        requires may { GivesTries task }
        requires asked { IsAsked host task }
        requires spelled { IsSpelled task }
        requires learns { HasRoom task 0 config.slots }
        requires looks { only_looks_for arrival.errand ≡ true → task ≡ Task.Look }
        ensures sound { IfOk result IsSound }
        ensures busy { IfOk result (λ stay. IsBusy stay.doing) }
        ensures of { IfOk result (λ stay. (stay.host ≡ host) × (stay.config ≡ config) × (stay.task ≡ task)) }
        ensures errand { IfOk result (λ stay. stay.errand ≡ arrival.errand) }
        ensures starts { IfOk result (λ stay. StartsIn arrival stay) }
    {
        let Arrival {
            epoch,
            errand,
            over,
        } = arrival;
        let core = HostCore::start(alloc, host, config)?;
        let tries = tries_of(&task);
        let window = Window::new(
            host.get(),
            config.slots(),
            Epoch::new(epoch),
            errand.only_looks(),
        );
        let mut stay = Stay {
            host,
            config,
            epoch,
            errand,
            over,
            core,
            window,
            come: [false; PLACES],
            doing: Doing::Nothing,
            task,
            tries,
        };
        stay.come_from(0);
        Ok(stay)
    }

    /// How many slots of the epoch are learned.
    pub fn length(&self) -> u16
        requires { IsFew self.now }
        ensures { result ≡ learned_of self.now }
    {
        self.core.prefix().len() as u16
    }

    /// Whether all slots are learned.
    pub fn is_full(&self) -> bool
        requires { IsFew self.now }
        ensures { IsTrue result ↔ (self.now.config.slots ≤ learned_of self.now) }
    {
        self.config.slots() <= self.length()
    }

    /// Whether the table is that of the one log: all that carries the table of the epoch before over is learned.
    pub fn is_whole(&self) -> bool
        ensures { IsTrue result ↔ Stands self.now.over self.now.core.prefix }
    {
        self.over.stands(self.core.prefix())
    }

    /// Begins a task.
    pub fn begin(&mut self, task: &Task) -> Option<Leave>
        requires sound { IsSound self.old }
        requires rests { self.old.doing ≡ Doing.Nothing }
        requires may { GivesTries task.now }
        requires asked { IsAsked self.old.host task.now }
        requires spelled { IsSpelled task.now }
        requires slot { (slot : _) → task.now ≡ Task.Mark slot → slot < self.old.config.slots }
        requires looks { only_looks_for self.old.errand ≡ true → task.now ≡ Task.Look }
        ensures sound { IsSound self.new }
        ensures left { IsSoLeft task.now result self.new }
        ensures silent { (said : _) → result ≡ Some (Leave.Answered said) → ⊥ }
        ensures task { IsNone result → self.new.task ≡ task.now }
        ensures same { IsSame self.old self.new }
        ensures leads { GoesOnIn self.old self.new }
    {
        if let Some(leave) = self.at_once(task) {
            return Some(leave);
        }
        self.task = *task;
        self.tries = tries_of(task);
        self.come_from(0);
        None
    }

    // How a task ends for which nothing is to be done here, or nothing can be.
    fn at_once(&self, task: &Task) -> Option<Leave>
        requires learned { IsFew self.now }
        requires rests { self.now.doing ≡ Doing.Nothing }
        requires slot { (slot : _) → task.now ≡ Task.Mark slot → slot < self.now.config.slots }
        ensures left { IfSome result (λ leave. IsSoLeft task.now (Some leave) self.now) }
        ensures silent { (said : _) → result ≡ Some (Leave.Answered said) → ⊥ }
        ensures room { IsNone result → HasRoom task.now (learned_of self.now) self.now.config.slots }
    {
        match task {
            Task::Mark { slot } => {
                if self.length() <= *slot {
                    return Some(Leave::NotLearned);
                }
            }
            _ => {
                if self.window.has_passed() || self.errand == Errand::LooksBack {
                    return Some(Leave::Passed);
                }
                if self.is_full() {
                    return Some(self.leave_full());
                }
            }
        }
        None
    }

    // All slots are learned. A host that only looks goes on to no epoch but the newest one.
    fn leave_full(&self) -> Leave
        requires rests { self.now.doing ≡ Doing.Nothing }
        requires all { self.now.config.slots ≤ learned_of self.now }
        ensures left { (task : _) → IsSoLeft task (Some result) self.now }
        ensures silent { (said : _) → result ≡ Leave.Answered said → ⊥ }
    {
        if self.errand.only_looks() {
            Leave::Passed
        } else {
            Leave::Full
        }
    }

    // Comes to the epoch on the first disk from this one on where it has not. If there is none, it works. One that only looks begins to.
    fn come_from(&mut self, first: u8)
        requires sound { IsSound self.old }
        requires rests { self.old.doing ≡ Doing.Nothing }
        requires room { HasRoom self.old.task (learned_of self.old) self.old.config.slots }
        ensures sound { IsSound self.new }
        ensures busy { IsBusy self.new.doing }
        ensures task { self.new.task ≡ self.old.task }
        ensures same { IsSame self.old self.new }
        ensures leads { GoesOnIn self.old self.new }
    {
        if self.errand.only_looks() {
            self.look();
            return;
        }
        match self.next_missing(first) {
            Some(disk) => self.come_on(disk),
            None => self.set_out(),
        }
    }

    // The first disk from this one on where the host has not come to the epoch.
    fn next_missing(&self, first: u8) -> Option<u8>
        requires { self.now.config.disks ≤ DISKS }
        ensures { IfSome result (λ disk. disk < self.now.config.disks) }
    {
        for disk in first..self.config.disks() {
            if !self.come[usize::from(disk)] {
                return Some(disk);
            }
        }
        None
    }

    // Comes to the epoch on a disk. What the window saw there is forgotten, since it does not see the calls that are made now.
    fn come_on(&mut self, disk: u8)
        requires sound { IsSound self.old }
        requires rests { self.old.doing ≡ Doing.Nothing }
        requires disk { disk < self.old.config.disks }
        requires comes { only_looks_for self.old.errand ≡ false }
        requires room { HasRoom self.old.task (learned_of self.old) self.old.config.slots }
        ensures sound { IsSound self.new }
        ensures busy { IsBusy self.new.doing }
        ensures task { self.new.task ≡ self.old.task }
        ensures same { IsSame self.old self.new }
        ensures leads { GoesOnIn self.old self.new }
    {
        self.window.forget(disk);
        let coming = Coming::new(self.host.get(), self.config.slots(), Epoch::new(self.epoch));
        self.doing = Doing::Comes { disk, coming };
    }

    // The core looks, and does nothing else.
    fn look(&mut self)
        requires sound { IsSound self.old }
        requires rests { self.old.doing ≡ Doing.Nothing }
        requires looks { only_looks_for self.old.errand ≡ true }
        requires room { HasRoom self.old.task (learned_of self.old) self.old.config.slots }
        ensures sound { IsSound self.new }
        ensures busy { IsBusy self.new.doing }
        ensures task { self.new.task ≡ self.old.task }
        ensures same { IsSame self.old self.new }
        ensures leads { GoesOnIn self.old self.new }
    {
        self.core.begin(Task::Look);
        self.doing = Doing::Works(Work::Looks);
    }

    // The core begins the task, or learns first what is there.
    #[tactic(auto, using(crate::proofs::Answering::itself))]
    fn set_out(&mut self)
        requires sound { IsSound self.old }
        requires rests { self.old.doing ≡ Doing.Nothing }
        requires comes { only_looks_for self.old.errand ≡ false }
        requires room { HasRoom self.old.task (learned_of self.old) self.old.config.slots }
        ensures sound { IsSound self.new }
        ensures busy { IsBusy self.new.doing }
        ensures task { self.new.task ≡ self.old.task }
        ensures same { IsSame self.old self.new }
        ensures leads { GoesOnIn self.old self.new }
    {
        let task = if self.is_ready() {
            self.task
        } else {
            Task::Look
        };
        self.work(task);
    }

    // Whether the task may begin: a marking at once, a beat once the host is at work, and all else once the table is whole.
    fn is_ready(&self) -> bool
        requires asked { IsAsked self.now.host self.now.task }
        ensures may { IsTrue result → MayCarryOut self.now.over self.now.core.prefix self.now.task }
        ensures marks { (slot : _) → self.now.task ≡ Task.Mark slot → IsTrue result }
    {
        match self.task {
            Task::Mark { .. } => true,
            Task::Beat => self.errand == Errand::Works,
            _ => self.errand == Errand::Works && self.is_whole(),
        }
    }

    // The core does this.
    fn work(&mut self, task: Task)
        requires sound { IsSound self.old }
        requires rests { self.old.doing ≡ Doing.Nothing }
        requires comes { only_looks_for self.old.errand ≡ false }
        requires may { GivesTries task }
        requires asked { IsAsked self.old.host task }
        requires spelled { IsSpelled task }
        requires submits { MayCarryOut self.old.over self.old.core.prefix task }
        requires before { IsFor self.old.task task }
        requires room { HasRoom task (learned_of self.old) self.old.config.slots }
        ensures sound { IsSound self.new }
        ensures busy { IsBusy self.new.doing }
        ensures task { self.new.task ≡ self.old.task }
        ensures same { IsSame self.old self.new }
        ensures leads { GoesOnIn self.old self.new }
    {
        self.core.begin(task);
        self.doing = Doing::Works(Work::Goes);
    }

    /// The device call that is due, and its disk.
    pub fn call(&self) -> Need<'_>
        requires sound { IsSound self.now }
        requires busy { IsBusy self.now.doing }
        ensures due { call_of_need cluster_version result ≡ call_due self.now }
        ensures disk { result.disk < self.now.config.disks }
        ensures range { IsWithin cluster_version (whole_length (image_of self.now)) result.call }
        ensures reads { only_looks_for self.now.errand ≡ true → OnlyReads (call_due self.now).1 }
    {
        match &self.doing {
            Doing::Nothing | Doing::Leaves => unreachable!(),
            Doing::Comes { disk, coming } => Need {
                disk: *disk,
                call: coming.call(),
            },
            Doing::Works(_) => self.window.call(&wanted(&self.core)),
        }
    }

    /// Hears the answer to the call that is due.
    pub fn hear(&mut self, heard: &Heard<'_>) -> Option<Leave>
        requires sound { IsSound self.old }
        requires busy { IsBusy self.old.doing }
        requires fits { Fits (call_due self.old).1 (heard_of cluster_version heard.now) }
        ensures sound { IsSound self.new }
        ensures left { IsSoLeft self.new.task result self.new }
        // An answer is a new one.
        ensures fresh { (said : _) → result ≡ Some (Leave.Answered said) → self.old.core.said ≡ None }
        ensures task { self.new.task ≡ self.old.task }
        ensures same { IsSame self.old self.new }
        ensures makes { MakesIn self.old self.new (call_due self.old) (device_answer heard.now) }
    {
        match &self.doing {
            Doing::Nothing | Doing::Leaves => unreachable!(),
            Doing::Comes { .. } => self.hear_coming(heard),
            Doing::Works(work) => {
                let work = *work;
                self.hear_core(work, heard)
            }
        }
    }

    // The host comes to the epoch on a disk.
    fn hear_coming(&mut self, heard: &Heard<'_>) -> Option<Leave>
        requires sound { IsSound self.old }
        requires comes { (disk : _) × (coming : _) × (self.old.doing ≡ Doing.Comes disk coming) }
        requires fits { Fits (call_due self.old).1 (heard_of cluster_version heard.now) }
        ensures sound { IsSound self.new }
        ensures left { IsSoLeft self.new.task result self.new }
        ensures silent { (said : _) → result ≡ Some (Leave.Answered said) → ⊥ }
        ensures task { self.new.task ≡ self.old.task }
        ensures same { IsSame self.old self.new }
        ensures makes { MakesIn self.old self.new (call_due self.old) (device_answer heard.now) }
    {
        let Doing::Comes { disk, coming } = &mut self.doing else {
            unreachable!()
        };
        // Called for its contract only: the call may be made.
        let _due = coming.call();
        coming.hear(heard);
        let disk = *disk;
        let end = coming.end()?;
        self.doing = Doing::Nothing;
        if end == End::Passed {
            return Some(Leave::Passed);
        }
        // A disk on which it failed is left out until the next task.
        self.come[usize::from(disk)] = end == End::Come;
        self.come_from(disk + 1);
        None
    }

    // The core hears an answer, once the window knows it.
    fn hear_core(&mut self, work: Work, heard: &Heard<'_>) -> Option<Leave>
        requires sound { IsSound self.old }
        requires works { self.old.doing ≡ Doing.Works work }
        requires fits { Fits (call_due self.old).1 (heard_of cluster_version heard.now) }
        ensures sound { IsSound self.new }
        ensures left { IsSoLeft self.new.task result self.new }
        ensures task { self.new.task ≡ self.old.task }
        ensures same { IsSame self.old self.new }
        ensures makes { MakesIn self.old self.new (call_due self.old) (device_answer heard.now) }
    {
        let outcome = self.window.hear(&wanted(&self.core), heard)?;
        let heard = *heard;
        let told = self.window.answer(outcome, &heard);
        is_whole(&told);
        self.core.hear(&told);
        if self.core.idle() {
            self.doing = Doing::Nothing;
            return match self.core.answer() {
                Some(said) if self.errand.only_looks() => Some(self.looked_alone(said)),
                Some(said) => self.ended(work, said),
                None => unreachable!(),
            };
        }
        if self.window.has_passed() || self.has_gone_on(work) || !self.may_call() {
            self.doing = Doing::Leaves;
            return Some(Leave::Passed);
        }
        None
    }

    // Whether the core goes on to another slot with a command that is due in this one. It makes no call there. It cannot be where all hosts submit what is due.
    fn has_gone_on(&self, work: Work) -> bool
        requires { IsFew self.now }
        ensures stays { result ≡ false → StaysAt work (learned_of self.now) }
    {
        match work {
            Work::Carries { slot } => slot < self.length(),
            Work::Goes | Work::Marks | Work::Looks => false,
        }
    }

    // Whether the call that the core has due may be made: it writes only where the host's number is surely the epoch's. It cannot be otherwise, since it attaches, syncs and reads before it
    // writes.
    fn may_call(&self) -> bool
        requires busy { is_idle self.now.core ≡ false }
        requires works { IsWorking self.now.core }
        requires host { self.now.core.learner.host < HOSTS }
        requires few { self.now.core.learner.shape.disks ≤ DISKS }
        ensures ready { IsTrue result → (c : Shape) (h : ℕ) (m : Memory) → cores.LeadsTo c h m self.now.core → IsReadyFor c h m self.now.window }
    {
        let due = wanted(&self.core);
        match &due.call {
            DeviceCall::Write { boot, .. } => self.window.is_sure(due.disk, *boot),
            DeviceCall::Attach => true,
            DeviceCall::Read { .. } => true,
            DeviceCall::Sync { .. } => true,
        }
    }

    // A look of a host that only looks has ended. The newest epoch may not tell the table yet. Then the one before tells it, once it is learned whole.
    fn looked_alone(&self, said: HostAnswer) -> Leave
        requires sound { IsSound self.now }
        requires rests { self.now.doing ≡ Doing.Nothing }
        requires looks { only_looks_for self.now.errand ≡ true }
        requires says { self.now.core.said ≡ Some said }
        requires fits { SaysFor self.now.over self.now.config.slots self.now.task Work.Looks self.now.core.prefix (Some said) }
        ensures left { IsSoLeft self.now.task (Some result) self.now }
    {
        match said {
            HostAnswer::Looked { .. } => {
                let is_back = self.errand == Errand::LooksBack;
                if self.is_whole() && (!is_back || self.is_full()) {
                    Leave::Answered(said)
                } else if is_back {
                    Leave::NotLearned
                } else {
                    Leave::NeedsBefore
                }
            }
            HostAnswer::Refused(_) => {
                if self.window.has_passed() {
                    Leave::Passed
                } else {
                    Leave::Answered(said)
                }
            }
            // It cannot be: the core looked.
            HostAnswer::Ack { .. }
            | HostAnswer::Recovered { .. }
            | HostAnswer::Beaten { .. }
            | HostAnswer::Marked { .. } => Leave::Passed,
        }
    }

    // The core has ended what it did.
    #[tactic(auto, using(crate::proofs::Leading::stays_as))]
    fn ended(&mut self, work: Work, said: HostAnswer) -> Option<Leave>
        requires sound { IsSound self.old }
        requires rests { self.old.doing ≡ Doing.Nothing }
        requires comes { only_looks_for self.old.errand ≡ false }
        requires told { IsAnswer self.old.config (learned_of self.old) (Some said) }
        requires says { self.old.core.said ≡ Some said }
        requires fits { SaysFor self.old.over self.old.config.slots self.old.task work self.old.core.prefix (Some said) }
        ensures sound { IsSound self.new }
        ensures left { IsSoLeft self.new.task result self.new }
        ensures task { self.new.task ≡ self.old.task }
        ensures same { IsSame self.old self.new }
        ensures leads { GoesOnIn self.old self.new }
    {
        match said {
            HostAnswer::Refused(refusal) => self.refused(work, refusal),
            HostAnswer::Looked { length } => self.looked(length),
            HostAnswer::Recovered { length } => self.recovered(length),
            HostAnswer::Ack { slot, .. } => match work {
                Work::Goes => Some(Leave::Answered(said)),
                Work::Carries { .. } => {
                    self.mark(slot);
                    None
                }
                Work::Marks | Work::Looks => unreachable!(),
            },
            HostAnswer::Marked { .. } => match work {
                Work::Goes => Some(Leave::Answered(said)),
                Work::Marks => self.carry(),
                Work::Carries { .. } | Work::Looks => unreachable!(),
            },
            HostAnswer::Beaten { .. } => match work {
                Work::Goes => Some(Leave::Answered(said)),
                Work::Carries { .. } | Work::Marks | Work::Looks => unreachable!(),
            },
        }
    }

    // The core was refused.
    #[tactic(auto, using(crate::proofs::Leading::stays_as))]
    fn refused(&mut self, work: Work, refusal: Refusal) -> Option<Leave>
        requires sound { IsSound self.old }
        requires rests { self.old.doing ≡ Doing.Nothing }
        requires comes { only_looks_for self.old.errand ≡ false }
        requires says { self.old.core.said ≡ Some (HostAnswer.Refused refusal) }
        ensures sound { IsSound self.new }
        ensures left { IsSoLeft self.new.task result self.new }
        ensures task { self.new.task ≡ self.old.task }
        ensures same { IsSame self.old self.new }
        ensures leads { GoesOnIn self.old self.new }
    {
        if self.window.has_passed() {
            Some(Leave::Passed)
        } else if refusal == Refusal::LogFull && self.is_full() {
            Some(Leave::Full)
        } else if work == Work::Marks {
            // A mark only spares others an attempt.
            self.carry()
        } else {
            Some(Leave::Answered(HostAnswer::Refused(refusal)))
        }
    }

    // A look has ended.
    #[tactic(auto, using(crate::proofs::Leading::stays_as))]
    fn looked(&mut self, length: u16) -> Option<Leave>
        requires sound { IsSound self.old }
        requires rests { self.old.doing ≡ Doing.Nothing }
        requires comes { only_looks_for self.old.errand ≡ false }
        requires says { self.old.core.said ≡ Some (HostAnswer.Looked length) }
        requires all { length ≡ learned_of self.old }
        ensures sound { IsSound self.new }
        ensures left { IsSoLeft self.new.task result self.new }
        ensures task { self.new.task ≡ self.old.task }
        ensures same { IsSame self.old self.new }
        ensures leads { GoesOnIn self.old self.new }
    {
        if self.is_full() {
            return Some(Leave::Full);
        }
        if self.errand == Errand::Works && self.is_whole() {
            return match self.task {
                Task::Look => Some(Leave::Answered(HostAnswer::Looked { length })),
                _ => {
                    self.go_on();
                    None
                }
            };
        }
        if self.errand == Errand::Works && self.over.is_known() {
            return self.carry();
        }
        let tries = self.tries;
        self.work(Task::Recover { tries });
        None
    }

    // A recovery has ended.
    #[tactic(auto, using(crate::proofs::Leading::stays_as))]
    fn recovered(&mut self, length: u16) -> Option<Leave>
        requires sound { IsSound self.old }
        requires rests { self.old.doing ≡ Doing.Nothing }
        requires comes { only_looks_for self.old.errand ≡ false }
        requires says { self.old.core.said ≡ Some (HostAnswer.Recovered length) }
        requires all { length ≡ learned_of self.old }
        ensures sound { IsSound self.new }
        ensures left { IsSoLeft self.new.task result self.new }
        ensures task { self.new.task ≡ self.old.task }
        ensures same { IsSame self.old self.new }
        ensures leads { GoesOnIn self.old self.new }
    {
        if self.is_full() {
            // It is no answer: there may be a later epoch.
            return Some(Leave::Full);
        }
        if self.errand == Errand::LearnsWhole {
            // It cannot be: nobody comes to the next epoch before somebody has learned this one whole.
            return Some(Leave::Passed);
        }
        if self.is_whole() {
            return match self.task {
                Task::Recover { .. } => Some(Leave::Answered(HostAnswer::Recovered { length })),
                _ => {
                    self.go_on();
                    None
                }
            };
        }
        if self.over.is_known() {
            return self.carry();
        }
        Some(Leave::NeedsBefore)
    }

    // The table is whole, so the core carries the task out.
    #[tactic(auto, using(crate::proofs::Answering::itself))]
    fn go_on(&mut self)
        requires sound { IsSound self.old }
        requires rests { self.old.doing ≡ Doing.Nothing }
        requires comes { only_looks_for self.old.errand ≡ false }
        requires whole { Stands self.old.over self.old.core.prefix }
        requires room { learned_of self.old < self.old.config.slots }
        ensures sound { IsSound self.new }
        ensures busy { IsBusy self.new.doing }
        ensures task { self.new.task ≡ self.old.task }
        ensures same { IsSame self.old self.new }
        ensures leads { GoesOnIn self.old self.new }
    {
        let task = self.task;
        self.work(task);
    }

    // Submits what is due in the next slot, while there is something, and then carries the task out.
    #[tactic(auto, using(crate::proofs::Leading::stays_as))]
    fn carry(&mut self) -> Option<Leave>
        requires sound { IsSound self.old }
        requires rests { self.old.doing ≡ Doing.Nothing }
        requires comes { only_looks_for self.old.errand ≡ false }
        ensures sound { IsSound self.new }
        ensures left { IsSoLeft self.new.task result self.new }
        ensures task { self.new.task ≡ self.old.task }
        ensures same { IsSame self.old self.new }
        ensures leads { GoesOnIn self.old self.new }
    {
        if self.is_full() {
            return Some(Leave::Full);
        }
        if self.is_whole() {
            self.go_on();
            return None;
        }
        let slot = self.length();
        let Some(command) = self.over.due(slot) else {
            // It cannot be: each of these is a command.
            return Some(Leave::Passed);
        };
        self.submit(command, slot);
        None
    }

    // Submits the command that is due in the next slot.
    fn submit(&mut self, command: Command, slot: u16)
        requires sound { IsSound self.old }
        requires rests { self.old.doing ≡ Doing.Nothing }
        requires comes { only_looks_for self.old.errand ≡ false }
        requires room { learned_of self.old < self.old.config.slots }
        requires next { slot ≡ learned_of self.old }
        requires spelled { decoded (spelling command) ≡ Some command }
        requires due { IsDueIn self.old.over slot (Submitting command) }
        ensures sound { IsSound self.new }
        ensures busy { IsBusy self.new.doing }
        ensures task { self.new.task ≡ self.old.task }
        ensures same { IsSame self.old self.new }
        ensures leads { GoesOnIn self.old self.new }
    {
        self.core.submit(command, self.tries);
        self.doing = Doing::Works(Work::Carries { slot });
    }

    // Marks a slot that carries a part of the table over, so that others learn it in one reading.
    fn mark(&mut self, slot: u16)
        requires sound { IsSound self.old }
        requires rests { self.old.doing ≡ Doing.Nothing }
        requires comes { only_looks_for self.old.errand ≡ false }
        requires learned { (slot < learned_of self.old) × (slot < self.old.config.slots) }
        ensures sound { IsSound self.new }
        ensures busy { IsBusy self.new.doing }
        ensures task { self.new.task ≡ self.old.task }
        ensures same { IsSame self.old self.new }
        ensures leads { GoesOnIn self.old self.new }
    {
        self.core.mark(slot);
        self.doing = Doing::Works(Work::Marks);
    }
}

// The call that a core at work has due: it reads a whole row of the image, or writes within the host's own block of one.
fn wanted(core: &HostCore) -> Need<'_>
    requires busy { is_idle core.now ≡ false }
    requires works { IsWorking core.now }
    requires host { core.now.learner.host < HOSTS }
    requires few { core.now.learner.shape.disks ≤ DISKS }
    ensures due { call_of_need cluster_version result ≡ cores.due_call core.now }
    ensures next { (c : Shape) (h : ℕ) (m : Memory) → cores.LeadsTo c h m core.now → next_in c h m ≡ Some (cores.due_call core.now) }
    ensures disk { result.disk < core.now.learner.shape.disks }
    ensures few { result.disk < DISKS }
    ensures own { IsOwn (image_length cluster_version core.now.learner.shape.slots) core.now.learner.host (device_call_of cluster_version result.call) }
{
    core.call()
}

// Called for its contract only: a row that a core is told is a whole one.
fn is_whole(heard: &Heard<'_>)
    ensures { IsWhole (device_answer heard.now) }
{
    if let Heard::Told(row) = heard {
        let _bytes = ClusterLayout::bytes_in(row);
    }
}

// Up to so many attempts on a slot may be outrun, also of what goes before a task.
fn tries_of(task: &Task) -> u8
    ensures { GivesTries task.now → 1 ≤ result }
{
    match task {
        Task::Submit { tries, .. } | Task::Recover { tries } => *tries,
        Task::Look | Task::Beat | Task::Mark { .. } => TRIES,
    }
}
