ghost use Rattle.std.specs.Prelude.{◌≡◌, ◌≤◌, ◌<◌, ◌++◌, ◌∷◌, [], ℕ, true, false, length, is_none, IfOk, Option, None, is_some, take, vec_len, vec_capacity};
ghost use Rattle.std.specs.Option.{option_map};
ghost use Rattle.torn_block.specs.Layout.{cluster_version};
ghost use Rattle.paxos_block.specs.Places.{image_length};
ghost use Rattle.attempt.specs.History.{Fits};
ghost use Rattle.lock_command.specs.Command.{spelling};
ghost use Rattle.lock_command.specs.Reading.{decoded};
ghost use Rattle.lock_table.specs.Apply.{table_after};
ghost use Rattle.lock_table.specs.Picture.{IsPictureOf};
ghost use Rattle.attempt.specs.DeviceCalls.{call_of_need, heard_of, IsWithin, device_answer};
ghost use Rattle.slot_log.specs.Kept as learners;
ghost use Rattle.slot_log.specs.Kept.{offered_of};
ghost use Rattle.slot_log.specs.Learning as log;
ghost use Rattle.paxos_block.specs.Shape.{Shape};
ghost use Rattle.host.specs.Alone.{IsAnsweredAlone, HasHeardFew};
ghost use Rattle.host.specs.Host as hosts;
ghost use Rattle.host.specs.Host.{Memory, Submitting, Recovering, fresh, goes_on, hears_from, looks_on, does, Beats, starts, starts_marking, suggested, takes_marked, next_in, reply_after};
ghost use Rattle.host.specs.Kept.{Kept, LeadsTo, AcknowledgesNone, MayBegin, answer_of, is_idle, is_nothing, is_looking, is_beating, is_marking, due_call, option_list};
ghost use Rattle.host.specs.declared.beside.Beside.TheVariants as beside;

use crate::answer::HostAnswer;
use crate::beside::Beside;
use crate::task::Task;
use attempt::{Heard, Need, Refusal};
use disk::NoMemory;
use heartbeat::suggest;
use lock_command::{Command, HostNumber, ValueBytes, decode};
use lock_table::{Reply, Table};
use paxos_block::{Config, Value};
use rounds::beats::{Beat, End, Readings};
use rounds::looks::{self, Look};
use rounds::marks::{self, Marking};
use slot_log::{Learner, LogOutcome};
use std::alloc::Global;
use std::marker::Model;
use torn_block::ClusterLayout;

/// A running host: what it has learned since its start, and the task that it carries out, one device call at a time.
///
/// No call but `start` takes memory.
#[derive(Drop)]
pub struct HostCore {
    host: HostNumber,
    config: Config,
    learner: Learner<ClusterLayout>,
    prefix: Vec<Command>,
    table: Table,
    said: Option<HostAnswer>,
    beside: Beside,
    /// The readings of the last beat that ended well.
    readings: Option<Readings>,
}

impl Model for HostCore {
    ghost use Rattle.std.specs.Prelude.{◌≡◌, ◌≤◌, None, map, vec_capacity};
    ghost use Rattle.torn_block.specs.declared.layout.TheConstants.{DISKS};
    ghost use Rattle.lock_command.specs.Command.{spelling};
    ghost use Rattle.lock_table.specs.Apply.{table_after};
    ghost use Rattle.lock_table.specs.Picture.{IsPictureOf};
    ghost use Rattle.slot_log.specs.Kept.{offered_of};
    ghost use Rattle.host.specs.Kept.{Kept, IsAlone};

    ghost Value = { Kept };

    ghost view = { λ core. record { learner = core.learner; prefix = core.prefix.items; said = core.said; beside = core.beside; readings = core.readings } };

    ghost invariant = { λ core. record {
      host : core.learner.host ≡ core.host;
      config : core.learner.shape ≡ core.config;
      few : core.config.disks ≤ DISKS;
      judged : offered_of core.learner ≡ None;
      prefix : core.learner.learned ≡ map spelling core.prefix.items;
      room : core.learner.shape.slots ≤ vec_capacity core.prefix;
      table : IsPictureOf core.table (table_after core.prefix.items);
      alone : IsAlone core.learner core.beside;
    } };
}

impl HostCore {
    /// A host that has learned nothing, with room for all that it may learn.
    pub fn start(alloc: Global, host: HostNumber, config: Config) -> Result<HostCore, NoMemory>
        ensures { IfOk result (λ core. LeadsTo config host fresh core) }
    {
        let slots = usize::from(config.slots());
        let learner = Learner::<ClusterLayout>::new(alloc, host.get(), config)?;
        let prefix = Vec::with_capacity(alloc, slots)?;
        let Ok(table) = Table::new(alloc) else {
            return Err(NoMemory);
        };
        Ok(HostCore {
            host,
            config,
            learner,
            prefix,
            table,
            said: None,
            beside: Beside::Nothing,
            readings: None,
        })
    }

    /// Whether a task may begin.
    pub fn idle(&self) -> bool
        ensures known { (c : Shape) (h : ℕ) (m : Memory) → LeadsTo c h m self.now →
            result ≡ hosts.is_idle m }
        ensures idle { result ≡ is_idle self.now }
    {
        self.learner.idle() && self.beside.is_nothing()
    }

    /// The host's number.
    pub fn host(&self) -> HostNumber
        ensures { result ≡ self.now.learner.host }
    {
        self.host
    }

    /// The commands learned: the first of the log, none left out.
    pub fn prefix(&self) -> &[Command]
        ensures known { (c : Shape) (h : ℕ) (m : Memory) → LeadsTo c h m self.now →
            result.now ≡ m.learned }
        ensures prefix { result.now ≡ self.now.prefix }
    {
        &self.prefix
    }

    /// The lock table after these commands.
    pub fn table(&self) -> &Table
        ensures known { (c : Shape) (h : ℕ) (m : Memory) → LeadsTo c h m self.now →
            IsPictureOf result.now (table_after m.learned) }
        ensures table { IsPictureOf result.now (table_after self.now.prefix) }
    {
        &self.table
    }

    /// What the last entry made the host say: how a task ended, where one ended with it.
    pub fn answer(&self) -> Option<HostAnswer>
        // The reply of an acknowledgement is the table's reply at that slot, by `reply_after`.
        ensures known { (c : Shape) (h : ℕ) (m : Memory) → LeadsTo c h m self.now →
            result ≡ m.said }
        ensures said { result ≡ self.now.said }
    {
        self.said
    }

    /// Whether the last entry made the host say nothing, as most do. An answer that is not there need not be copied to find that out.
    #[inline(always)]
    pub fn is_silent(&self) -> bool
        ensures { result ≡ is_none self.now.said }
    {
        self.said.is_none()
    }

    /// Begins a task.
    pub fn begin(&mut self, task: Task)
        requires idle { is_idle self.old ≡ true }
        requires may { MayBegin self.old task }
        ensures { (c : Shape) (h : ℕ) (m : Memory) → LeadsTo c h m self.old →
            LeadsTo c h (starts c m task) self.new }
    {
        match task {
            Task::Submit { command, tries } => self.submit(command, tries),
            Task::Recover { tries } => self.recover(tries),
            Task::Look => self.look(),
            Task::Beat => self.beat(),
            Task::Mark { slot } => self.mark(slot),
        }
    }

    /// Begins a `Task::Submit`.
    pub fn submit(&mut self, command: Command, tries: u8)
        requires idle { is_idle self.old ≡ true }
        requires tries { 1 ≤ tries }
        ensures { (c : Shape) (h : ℕ) (m : Memory) → LeadsTo c h m self.old →
            LeadsTo c h (goes_on c m (Submitting command) tries) self.new }
    {
        self.learner.place(command.encode(), tries);
        self.said = HostAnswer::of(self.learner.said(), None);
    }

    /// Begins a `Task::Recover`.
    pub fn recover(&mut self, tries: u8)
        requires idle { is_idle self.old ≡ true }
        requires tries { 1 ≤ tries }
        ensures { (c : Shape) (h : ℕ) (m : Memory) → LeadsTo c h m self.old →
            LeadsTo c h (goes_on c m Recovering tries) self.new }
    {
        self.learner.recover(tries);
        self.said = HostAnswer::of(self.learner.said(), None);
    }

    /// Begins a `Task::Look`.
    pub fn look(&mut self)
        requires idle { is_idle self.old ≡ true }
        ensures { (c : Shape) (h : ℕ) (m : Memory) → LeadsTo c h m self.old →
            LeadsTo c h (looks_on c m 0) self.new }
    {
        let disks = self.config.disks();
        prove!(0 < disks);
        self.look_on(0);
    }

    /// Begins a `Task::Beat`.
    pub fn beat(&mut self)
        requires idle { is_idle self.old ≡ true }
        ensures { (c : Shape) (h : ℕ) (m : Memory) → LeadsTo c h m self.old →
            LeadsTo c h (does m (Beats [])) self.new }
    {
        self.beside = Beside::Beat(Beat::new(self.host.get(), self.config.disks()));
        self.said = None;
    }

    /// Begins a `Task::Mark`.
    pub fn mark(&mut self, slot: u16)
        requires idle { is_idle self.old ≡ true }
        ensures { (c : Shape) (h : ℕ) (m : Memory) → LeadsTo c h m self.old →
            LeadsTo c h (starts_marking m slot) self.new }
    {
        match self.learner.learned().get(usize::from(slot)) {
            Some(value) => {
                let value = *value;
                let disks = self.config.disks();
                self.beside = Beside::Mark(Marking::new(self.host.get(), slot, disks, value));
                self.said = None;
            }
            None => self.said = Some(HostAnswer::Refused(Refusal::NotLearned)),
        }
    }

    /// The device call that is due.
    // Inlined: else the call would be written to memory and read back at each step.
    #[inline(always)]
    pub fn call(&self) -> Need<'_>
        requires { is_idle self.now ≡ false }
        ensures next { (c : Shape) (h : ℕ) (m : Memory) → LeadsTo c h m self.now →
            next_in c h m ≡ Some (call_of_need cluster_version result) }
        ensures due { call_of_need cluster_version result ≡ due_call self.now }
        ensures range { IsWithin cluster_version (image_length cluster_version self.now.learner.shape.slots) result.call }
        ensures disk { result.disk < self.now.learner.shape.disks }
    {
        match &self.beside {
            Beside::Nothing => self.learner.call(),
            Beside::Look(look) => look.call(),
            Beside::Beat(beat) => beat.call(),
            Beside::Mark(marking) => marking.call(),
        }
    }

    /// Hears the answer to the call that is due.
    // Inlined: else the answer would be written to memory and its kind tested again.
    #[inline(always)]
    pub fn hear(&mut self, heard: &Heard<'_>)
        requires busy { is_idle self.old ≡ false }
        requires fits { Fits (due_call self.old).1 (heard_of cluster_version heard.now) }
        ensures leads { (c : Shape) (h : ℕ) (m : Memory) → LeadsTo c h m self.old →
            LeadsTo c h (hears_from c h m m.doing (due_call self.old).0 (device_answer heard.now)) self.new }
        // An attempt ends Committed, Decided, Empty or BallotsSpent, within 17 calls a disk, if most disks answer and no other host
        // makes a call on the slot meanwhile.
        ensures alone { (c : Shape) (h : ℕ) (m : Memory) → LeadsTo c h m self.old →
            IsAnsweredAlone c h m m.doing (record { disk = (due_call self.old).0; heard = heard_of cluster_version heard.now }) }
        // With this answer a look has heard at most two answers a disk of the slot that it is at, and a beat or a marking at most nine.
        ensures few { (c : Shape) (h : ℕ) (m : Memory) → LeadsTo c h m self.old →
            HasHeardFew c m.doing }
        // None of these acknowledges a command.
        ensures silent { is_nothing self.old.beside ≡ false → AcknowledgesNone self.new.said }
    {
        match &self.beside {
            Beside::Nothing => self.hear_attempt(heard),
            Beside::Look(_) => self.hear_look(heard),
            Beside::Beat(_) => self.hear_beat(heard),
            Beside::Mark(_) => self.hear_marking(heard),
        }
    }

    // The attempt under way hears the answer.
    #[inline(always)]
    fn hear_attempt(&mut self, heard: &Heard<'_>)
        requires alone { self.old.beside ≡ beside.Nothing }
        requires busy { is_idle self.old ≡ false }
        requires fits { Fits (due_call self.old).1 (heard_of cluster_version heard.now) }
        ensures leads { (c : Shape) (h : ℕ) (m : Memory) → LeadsTo c h m self.old →
            LeadsTo c h (hears_from c h m m.doing (due_call self.old).0 (device_answer heard.now)) self.new }
        ensures alone { (c : Shape) (h : ℕ) (m : Memory) → LeadsTo c h m self.old →
            IsAnsweredAlone c h m m.doing (record { disk = (due_call self.old).0; heard = heard_of cluster_version heard.now }) }
        ensures few { (c : Shape) (h : ℕ) (m : Memory) → LeadsTo c h m self.old →
            HasHeardFew c m.doing }
    {
        self.learner.hear(heard);
        let Some(value) = self.learner.offered() else {
            tell(&mut self.said, self.learner.said());
            return;
        };
        let reply = judge(&mut self.learner, &mut self.prefix, &mut self.table, &value);
        self.said = HostAnswer::of(self.learner.said(), reply);
    }

    // The look under way hears the answer.
    #[inline(never)]
    fn hear_look(&mut self, heard: &Heard<'_>)
        requires looks { is_looking self.old.beside ≡ true }
        requires fits { Fits (due_call self.old).1 (heard_of cluster_version heard.now) }
        ensures leads { (c : Shape) (h : ℕ) (m : Memory) → LeadsTo c h m self.old →
            LeadsTo c h (hears_from c h m m.doing (due_call self.old).0 (device_answer heard.now)) self.new }
        ensures alone { (c : Shape) (h : ℕ) (m : Memory) → LeadsTo c h m self.old →
            IsAnsweredAlone c h m m.doing (record { disk = (due_call self.old).0; heard = heard_of cluster_version heard.now }) }
        ensures few { (c : Shape) (h : ℕ) (m : Memory) → LeadsTo c h m self.old →
            HasHeardFew c m.doing }
        ensures silent { AcknowledgesNone self.new.said }
    {
        let Beside::Look(look) = &mut self.beside else {
            return;
        };
        look.hear(heard);
        let Some(end) = look.end() else {
            self.said = None;
            return;
        };
        self.beside = Beside::Nothing;
        match end {
            looks::End::Decided { disk, value } => self.learn_marked(disk, &value),
            looks::End::Unmarked => {
                let length = self.learner.learned().len() as u16;
                self.said = Some(HostAnswer::Looked { length });
            }
            looks::End::NoMajority => {
                let refusal = Refusal::NoMajority;
                self.said = Some(HostAnswer::Refused(refusal));
            }
        }
    }

    // The beat under way hears the answer.
    #[inline(never)]
    fn hear_beat(&mut self, heard: &Heard<'_>)
        requires beats { is_beating self.old.beside ≡ true }
        requires fits { Fits (due_call self.old).1 (heard_of cluster_version heard.now) }
        ensures leads { (c : Shape) (h : ℕ) (m : Memory) → LeadsTo c h m self.old →
            LeadsTo c h (hears_from c h m m.doing (due_call self.old).0 (device_answer heard.now)) self.new }
        ensures alone { (c : Shape) (h : ℕ) (m : Memory) → LeadsTo c h m self.old →
            IsAnsweredAlone c h m m.doing (record { disk = (due_call self.old).0; heard = heard_of cluster_version heard.now }) }
        ensures few { (c : Shape) (h : ℕ) (m : Memory) → LeadsTo c h m self.old →
            HasHeardFew c m.doing }
        ensures silent { AcknowledgesNone self.new.said }
    {
        let Beside::Beat(beat) = &mut self.beside else {
            return;
        };
        beat.hear(heard);
        match beat.end() {
            None => self.said = None,
            Some(End::NoMajority) => {
                self.said = Some(HostAnswer::Refused(Refusal::NoMajority));
                self.beside = Beside::Nothing;
            }
            Some(End::Beaten) => {
                let after = beat.readings();
                self.beside = Beside::Nothing;
                let host = self.suggested(&after);
                self.readings = Some(after);
                self.said = Some(HostAnswer::Beaten { host });
            }
        }
    }

    // The marking under way hears the answer.
    #[inline(never)]
    fn hear_marking(&mut self, heard: &Heard<'_>)
        requires marks { is_marking self.old.beside ≡ true }
        requires fits { Fits (due_call self.old).1 (heard_of cluster_version heard.now) }
        ensures leads { (c : Shape) (h : ℕ) (m : Memory) → LeadsTo c h m self.old →
            LeadsTo c h (hears_from c h m m.doing (due_call self.old).0 (device_answer heard.now)) self.new }
        ensures alone { (c : Shape) (h : ℕ) (m : Memory) → LeadsTo c h m self.old →
            IsAnsweredAlone c h m m.doing (record { disk = (due_call self.old).0; heard = heard_of cluster_version heard.now }) }
        ensures few { (c : Shape) (h : ℕ) (m : Memory) → LeadsTo c h m self.old →
            HasHeardFew c m.doing }
        ensures silent { AcknowledgesNone self.new.said }
    {
        let Beside::Mark(marking) = &mut self.beside else {
            return;
        };
        marking.hear(heard);
        match marking.end() {
            None => self.said = None,
            Some(marks::End::NoMajority) => {
                let refusal = Refusal::NoMajority;
                self.said = Some(HostAnswer::Refused(refusal));
                self.beside = Beside::Nothing;
            }
            Some(marks::End::Marked { count }) => {
                self.said = Some(HostAnswer::Marked { count });
                self.beside = Beside::Nothing;
            }
        }
    }

    // A marked block on this disk told the next slot's value. A command is learned, and the look goes on; else it ends.
    fn learn_marked(&mut self, disk: u8, value: &Value)
        requires idle { is_idle self.old ≡ true }
        requires disk { disk < self.old.learner.shape.disks }
        requires slot { length self.old.learner.learned < self.old.learner.shape.slots }
        ensures leads { (c : Shape) (h : ℕ) (m : Memory) → LeadsTo c h m self.old →
            LeadsTo c h (takes_marked c m disk (decoded value.now)) self.new }
        ensures silent { AcknowledgesNone self.new.said }
    {
        let Some(command) = decode(value) else {
            self.said = Some(HostAnswer::Refused(Refusal::NotACommand));
            return;
        };
        carry_out(&mut self.prefix, &mut self.table, command);
        self.learner.learn_marked(*value);
        self.look_on(disk);
    }

    // Looks at the next slot, where there is one, and asks this disk first.
    fn look_on(&mut self, first: u8)
        requires idle { is_idle self.old ≡ true }
        requires first { first < self.old.learner.shape.disks }
        ensures leads { (c : Shape) (h : ℕ) (m : Memory) → LeadsTo c h m self.old →
            LeadsTo c h (looks_on c m first) self.new }
        ensures silent { AcknowledgesNone self.new.said }
    {
        let slot = self.learner.learned().len() as u16;
        if slot < self.config.slots() {
            self.beside = Beside::Look(Look::new(slot, self.config.disks(), first));
            self.said = None;
        } else {
            self.said = Some(HostAnswer::Looked { length: slot });
        }
    }

    // The host that these readings suggest after those of the last beat that ended well.
    fn suggested(&self, after: &Readings) -> u8
        ensures { result ≡ suggested self.now.learner.host
            (option_map (take self.now.learner.shape.disks) self.now.readings)
            (take self.now.learner.shape.disks after.now) }
    {
        let disks = usize::from(self.config.disks());
        match &self.readings {
            None => self.host.get(),
            Some(before) => suggest(&before[..disks], &after[..disks], self.host.get()),
        }
    }

    /// Stops the host. What it knew is gone.
    pub fn stop(self) {}
}

// What the host says once its learner has come to this, with no command learned. Most answers end nothing: then no more than that is written, since an
// answer that was written whole is slow to read again.
#[inline(always)]
fn tell(said: &mut Option<HostAnswer>, outcome: Option<LogOutcome>)
    ensures { said.new ≡ answer_of outcome None }
{
    match outcome {
        None => *said = None,
        Some(_) => *said = HostAnswer::of(outcome, None),
    }
}

// A value that the learner offers is learned if it is a command, and then carried out. Gives the reply to it.
#[inline(never)]
fn judge(
    learner: &mut Learner<ClusterLayout>,
    prefix: &mut Vec<Command>,
    table: &mut Table,
    value: &Value,
) -> Option<Reply>
    requires offered { offered_of learner.old ≡ Some value.now }
    requires room { vec_len prefix.old < vec_capacity prefix.old }
    requires table { IsPictureOf table.old (table_after prefix.old.items) }
    ensures leads { (c : Shape) (h : ℕ) (m : log.Memory) →
        learners.LeadsTo cluster_version c h m learner.old →
        learners.LeadsTo cluster_version c h (log.takes cluster_version c h m m.doing (is_some (decoded value.now))) learner.new }
    ensures judged { offered_of learner.new ≡ None }
    ensures learned { learner.new.learned ≡ learner.old.learned ++ option_list (option_map spelling (decoded value.now)) }
    ensures same { (learner.new.host ≡ learner.old.host) × (learner.new.shape ≡ learner.old.shape) }
    ensures prefix { prefix.new.items ≡ prefix.old.items ++ option_list (decoded value.now) }
    ensures room { vec_capacity prefix.new ≡ vec_capacity prefix.old }
    ensures table { IsPictureOf table.new (table_after prefix.new.items) }
    ensures reply { result ≡ option_map (reply_after prefix.old.items) (decoded value.now) }
{
    let Some(command) = decode(value) else {
        learner.take(false);
        return None;
    };
    let reply = carry_out(prefix, table, command);
    learner.take(true);
    Some(reply)
}

// A command is carried out that was learned, and gets its reply.
fn carry_out(prefix: &mut Vec<Command>, table: &mut Table, command: Command) -> Reply
    requires room { vec_len prefix.old < vec_capacity prefix.old }
    requires table { IsPictureOf table.old (table_after prefix.old.items) }
    ensures prefix { prefix.new.items ≡ prefix.old.items ++ command ∷ [] }
    ensures room { vec_capacity prefix.new ≡ vec_capacity prefix.old }
    ensures table { IsPictureOf table.new (table_after prefix.new.items) }
    ensures reply { result ≡ reply_after prefix.old.items command }
{
    // These two lines do nothing when they run. Without them the checker does not load the types inside `Command`, and the proof fails.
    let _action = &command.action;
    let _no_value: Option<ValueBytes> = None;
    let reply = table.apply(&command);
    prefix.push_reserved(command);
    reply
}
