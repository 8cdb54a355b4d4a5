ghost use Rattle.std.specs.Prelude.{◌≡◌, ◌<◌, ◌≤◌, ◌+◌, ◌*◌, ◌&&◌, ◌++◌, ◌∷◌, [], ℕ, List, Some, None, length, not};
ghost use Rattle.std.specs.Option.{option_map};
ghost use Rattle.torn_block.specs.declared.layout.TheConstants.{HOSTS, DISKS, ROW_LENGTH};
ghost use Rattle.torn_block.specs.Layout.{cluster_version};
ghost use Rattle.paxos_block.specs.Places.{row_place};
ghost use Rattle.paxos_block.specs.Row.{decoded_row};
ghost use Rattle.attempt.specs.Answers.{Answered, Told, on};
ghost use Rattle.attempt.specs.History.{Fits};
ghost use Rattle.attempt.specs.DeviceCalls.{call_of_need, heard_of, IsWithin};
ghost use Rattle.attempt.specs.ReadRows.{ReadsAs};
ghost use Rattle.rounds.specs.Marking.Kept.{IsSameMarking, LeadsTo, answer_of, call_due, end_of, end_of_status};
ghost use Rattle.rounds.specs.Marking.Status.{Setup, is_value, status, next_call};
ghost use Rattle.rounds.specs.Kept.{end_by};

use super::end::End;
use crate::round::{Round, Stage};
use attempt::{Heard, Need};
use paxos_block::{PBlock, Row, Value, block_place, encode, read_row, row_place};
use std::marker::Model;
use torn_block::{ClusterLayout, ROW_LENGTH};

/// A marking of a slot whose value the host has learned: on each disk it reads the slot's row, and where the host's own
/// block holds the value it is written anew, the same but for its mark.
///
/// It asks for one device call at a time, hears the answer, and takes no memory. It visits the disks once, by rising
/// number.
#[derive(Drop)]
pub struct Marking {
    host: u8,
    slot: u16,
    /// What was learned of the slot.
    value: Value,
    round: Round,
}

impl Model for Marking {
    ghost use Rattle.rounds.specs.Marking.Notes.{Notes, IsSound, notes_in};

    ghost Value = { Notes };

    ghost view = { λ marking. notes_in marking.host marking.slot marking.value marking.round };

    ghost invariant = { λ marking. IsSound marking.host marking.round };
}

impl Marking {
    /// A marking that has heard nothing, of a slot with this value, over the disks below `disks`.
    pub fn new(host: u8, slot: u16, disks: u8, value: Value) -> Marking
        requires host { host < HOSTS }
        requires some { 0 < disks }
        requires few { disks ≤ DISKS }
        ensures leads { LeadsTo (record { host = host; slot = slot; disks = disks; value = value }) [] result }
        ensures going { result.end ≡ None }
        ensures slot { result.slot ≡ slot }
    {
        Marking {
            host,
            slot,
            value,
            round: Round::new(disks),
        }
    }

    /// The device call that is due.
    pub fn call(&self) -> Need<'_>
        requires { self.now.end ≡ None }
        // The call that the definition names after these answers, with the same boot number and bytes.
        ensures next { (s : Setup) (heard : List Answered) → LeadsTo s heard self.now →
            next_call s (on heard) ≡ Some (call_of_need cluster_version result) }
        ensures due { call_of_need cluster_version result ≡ call_due self.now }
        ensures range { IsWithin cluster_version (row_place cluster_version self.now.slot + ROW_LENGTH) result.call }
        ensures disk { result.disk < self.now.disks }
    {
        let slot = u32::from(self.slot);
        self.round.call(
            row_place::<ClusterLayout>(slot),
            block_place::<ClusterLayout>(slot, self.host),
        )
    }

    /// Hears the answer to the call that is due.
    pub fn hear(&mut self, heard: &Heard<'_>)
        requires going { self.old.end ≡ None }
        requires fits { Fits (call_due self.old).1 (heard_of cluster_version heard.now) }
        ensures leads { (s : Setup) (answers : List Answered) → LeadsTo s answers self.old →
            LeadsTo s (answers ++ answer_of self.old heard.now ∷ []) self.new }
        ensures bound { (s : Setup) (answers : List Answered) → LeadsTo s answers self.old →
            length (answers ++ answer_of self.old heard.now ∷ []) ≤ 9 * s.disks }
        ensures same { IsSameMarking self.old self.new }
    {
        match heard {
            Heard::Told(bytes) => self.hear_row(bytes),
            _ => self.round.hear(heard),
        }
    }

    // The bytes of the row were read. The row is a local variable here, and not in the caller: a function sets up its locals at
    // each call.
    #[inline(never)]
    fn hear_row(&mut self, bytes: &[u8; ROW_LENGTH])
        requires going { self.old.end ≡ None }
        requires stage { self.old.round.stage ≡ Stage.Reading }
        ensures same { IsSameMarking self.old self.new }
        ensures leads { (s : Setup) (answers : List Answered) → LeadsTo s answers self.old →
            LeadsTo s (answers ++
            record { disk = self.old.disk; heard = Told (decoded_row cluster_version bytes.now) } ∷ []) self.new }
    {
        let mut row = Row::blank();
        match read_row::<ClusterLayout>(&mut row, bytes) {
            Ok(()) => self.take_row(&row),
            Err(_) => self.round.drop_disk(),
        }
    }

    // The row was read. The own block is written where it holds the value without a mark.
    fn take_row(&mut self, row: &Row<Value>)
        requires going { self.old.end ≡ None }
        requires stage { self.old.round.stage ≡ Stage.Reading }
        requires row { (bytes : List ℕ) × ReadsAs cluster_version (λ value. value) bytes row.now }
        ensures same { IsSameMarking self.old self.new }
        ensures leads { (s : Setup) (answers : List Answered) (bytes : List ℕ) → ReadsAs cluster_version (λ value. value) bytes row.now → LeadsTo s answers self.old →
            LeadsTo s (answers ++
            record { disk = self.old.disk; heard = Told (decoded_row cluster_version bytes) } ∷ []) self.new }
    {
        let cell = row.cell(self.host);
        if is_to_mark(&cell.says, &self.value) {
            let marked = PBlock {
                mark: true,
                ..cell.says
            };
            self.round
                .write(&cell.block, &encode::<ClusterLayout>(self.host, &marked));
        } else {
            self.round.pass(cell.says.mark);
        }
    }

    /// How it has ended, if it has.
    pub fn end(&self) -> Option<End>
        ensures end { (s : Setup) (heard : List Answered) → LeadsTo s heard self.now →
            option_map end_of result ≡ end_of_status (status s (on heard)) }
        ensures told { result ≡ self.now.end }
    {
        ended(self.round.end)
    }
}

// The end of a round, of a marking's.
fn ended(end: Option<crate::end::End>) -> Option<End>
    ensures { result ≡ option_map (end_by End.Marked End.NoMajority) end }
{
    match end? {
        crate::end::End::Over { held } => Some(End::Marked { count: held }),
        crate::end::End::NoMajority => Some(End::NoMajority),
    }
}

// Whether a block holds this value without a mark.
fn is_to_mark(says: &PBlock<Value>, value: &Value) -> bool
    ensures { result ≡ (not says.now.mark && is_value says.now.inp value.now) }
{
    match says.inp {
        Some(inp) => !says.mark && inp == *value,
        None => false,
    }
}
