ghost use Rattle.std.specs.Prelude.{◌≡◌, ◌<◌, ◌++◌, ℕ, true, false, Some, vec_len, vec_capacity};
ghost use Rattle.attempt.specs.History.{Fits};
ghost use Rattle.lock_table.specs.Apply.{table_after};
ghost use Rattle.lock_table.specs.Picture.{IsPictureOf};
ghost use Rattle.attempt.specs.DeviceCalls.{device_answer, call_of_need, heard_of, IsWithin};
ghost use Rattle.torn_block.specs.Layout.{cluster_version};
ghost use Rattle.paxos_block.specs.Places.{image_length};
ghost use Rattle.host.specs.Host.{Memory, idles, said_of, learned_of, next_of, hears_from};
ghost use Rattle.host.specs.Kept.{LeadsTo, is_idle, is_nothing, due_call};
ghost use Rattle.paxos_block.specs.Shape.{Shape};
ghost use Rattle.cluster.specs.Operations.{CarriesOne};
ghost use Rattle.cluster.specs.Receipts.{receipts_of, receipts_said};
ghost use Rattle.cluster.specs.Seat.{host_in, due_in};

use crate::cluster_name::ClusterName;
use crate::receipt::Receipt;
use attempt::{Heard, Need};
use cluster_tie::HostTie;
use host::{HostAnswer, HostCore};
use lock_command::{Command, HostNumber, ValueBytes};
use lock_table::Table;
use std::marker::Model;

/// A running host. Contracts see it as its number and its own list of entries, each with its place in the journal.
#[derive(Drop)]
pub struct HostSeat<N: ClusterName> {
    pub(crate) core: HostCore,
    pub(crate) submitting: Option<Command>,
    pub(crate) acks: Vec<Receipt>,
    pub(crate) tie: HostTie<N>,
}

impl<N: ClusterName> Model for HostSeat<N> {
    ghost use Rattle.std.specs.Prelude.{◌≡◌, ◌≤◌, vec_capacity, length};
    ghost use Rattle.cluster_tie.specs.Parts.{Own};
    ghost use Rattle.cluster.specs.Receipts.{receipts_of};
    ghost use Rattle.cluster.specs.Seat.{IsRunning};

    ghost Value = { Own };

    ghost view = { λ s. s.tie };

    ghost invariant = { λ s. record {
      running : IsRunning N.shape s.tie s.core s.submitting;
      acks : s.acks.items ≡ receipts_of N.shape s.tie;
      few : length s.acks.items ≤ length s.core.prefix;
      room : N.shape.slots ≤ vec_capacity s.acks;
    } };
}

impl<N: ClusterName> HostSeat<N> {
    /// The host's number.
    pub fn host(&self) -> HostNumber
        ensures { result ≡ self.now.number }
    {
        self.core.host()
    }

    /// Whether the host may be given an operation.
    pub fn idle(&self) -> bool
        ensures { result ≡ idles (host_in N.shape self.now) }
    {
        self.core.idle()
    }

    /// The commands that it has learned: the first of the log, none left out.
    pub fn prefix(&self) -> &[Command]
        ensures { result.now ≡ learned_of (host_in N.shape self.now) }
    {
        self.core.prefix()
    }

    /// The lock table after these commands.
    pub fn table(&self) -> &Table
        ensures { IsPictureOf result.now (table_after (learned_of (host_in N.shape self.now))) }
    {
        self.core.table()
    }

    /// The acknowledged submissions of this incarnation, in order.
    pub fn acks(&self) -> &[Receipt]
        ensures { result.now ≡ receipts_of N.shape self.now }
    {
        &self.acks
    }

    /// What the host's last entry made it say.
    pub fn answer(&self) -> Option<HostAnswer>
        ensures { result ≡ said_of (host_in N.shape self.now) }
    {
        self.core.answer()
    }

    // A host that is not idle carries a task out.
    pub(crate) fn carries_one(&self)
        requires { idles (host_in N.shape self.now) ≡ false }
        ensures { CarriesOne N.shape self.now }
    {
        let _core = &self.core;
    }

    // The device call that is due.
    // Inlined: else the call would be written to memory and read back at each step.
    #[inline(always)]
    pub(crate) fn call(&self) -> Need<'_>
        requires { idles (host_in N.shape self.now) ≡ false }
        ensures next { next_of N.shape self.now.number (host_in N.shape self.now) ≡
            Some (call_of_need cluster_version result) }
        ensures due { call_of_need cluster_version result ≡ due_in N.shape self.now }
        ensures range { IsWithin cluster_version (image_length cluster_version N.shape.slots) result.call }
        ensures disk { result.disk < N.shape.disks }
    {
        self.core.call()
    }
}

// Hears the answer to the call that is due. Its entry has this place in the journal.
pub(crate) fn hear(
    core: &mut HostCore,
    acks: &mut Vec<Receipt>,
    submitting: Option<Command>,
    heard: &Heard<'_>,
    place: usize,
)
    requires busy { is_idle core.old ≡ false }
    requires fits { Fits (due_call core.old).1 (heard_of cluster_version heard.now) }
    // A beat, a marking and a look bring no receipt.
    requires room { is_nothing core.old.beside ≡ true → vec_len acks.old < vec_capacity acks.old }
    ensures leads { (c : Shape) (h : ℕ) (m : Memory) → LeadsTo c h m core.old →
        LeadsTo c h (hears_from c h m m.doing (due_call core.old).0 (device_answer heard.now)) core.new }
    ensures acks { acks.new.items ≡ acks.old.items ++ receipts_said core.old.learner.host place submitting core.new.said }
    ensures room { vec_capacity acks.new ≡ vec_capacity acks.old }
{
    let host = core.host();
    core.hear(heard);
    if let (Some(command), Some(HostAnswer::Ack { slot, reply })) = (submitting, core.answer()) {
        // These two lines do nothing when they run. Without them the checker does not load the types inside `Command`, and the proof fails.
        let _action = &command.action;
        let _no_value: Option<ValueBytes> = None;
        acks.push_reserved(Receipt {
            host,
            command,
            slot,
            reply,
            place,
        });
    }
}
