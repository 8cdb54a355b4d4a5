ghost use Rattle.std.specs.Prelude.{◌≡◌, ◌<◌, ◌≤◌, ◌+◌, ◌*◌, ◌++◌, ◌∷◌, [], List, Some, None, length};
ghost use Rattle.std.specs.Option.{option_map};
ghost use Rattle.torn_block.specs.Layout.{cluster_version};
ghost use Rattle.torn_block.specs.declared.layout.TheConstants.{DISKS, ROW_LENGTH};
ghost use Rattle.paxos_block.specs.Places.{row_place};
ghost use Rattle.attempt.specs.Answers.{Answered, on};
ghost use Rattle.attempt.specs.History.{Fits};
ghost use Rattle.attempt.specs.DeviceCalls.{call_of_need, heard_of, IsWithin};
ghost use Rattle.rounds.specs.Look.Kept.{IsInside, IsSameLook, LeadsTo, answer_of, call_due, end_of, end_of_status};
ghost use Rattle.rounds.specs.Look.Status.{Setup, status, next_call};

use super::end::End;
use super::notes::Notes;
use attempt::{Heard, Need};
use std::marker::Model;

/// A look at a slot: the slot's row is read disk by disk, until a marked block tells the value or more than half of the
/// disks have shown that none does.
///
/// It asks for one device call at a time, hears the answer, and takes no memory. It asks the disk first that it was begun
/// with, and then the others by rising number. It syncs nothing: a mark is true wherever it is read, and one that a marking
/// counted was synced by it.
#[derive(Drop)]
pub struct Look {
    notes: Notes,
}

impl Model for Look {
    ghost use Rattle.rounds.specs.declared.looks.notes.Notes.{Notes};
    ghost use Rattle.rounds.specs.Look.Kept.{IsSound};

    ghost Value = { Notes };

    ghost view = { λ look. look.notes };

    ghost invariant = { λ look. IsSound look.notes };
}

impl Look {
    /// A look that has heard nothing, at a slot over the disks below `disks`, which asks this one first.
    pub fn new(slot: u16, disks: u8, first: u8) -> Look
        requires first { first < disks }
        requires few { disks ≤ DISKS }
        ensures leads { LeadsTo (record { slot = slot; disks = disks; first = first }) [] result }
        ensures going { result.end ≡ None }
        ensures slot { result.slot ≡ slot }
    {
        Look {
            notes: Notes::new(slot, disks, first),
        }
    }

    /// The device call that is due.
    pub fn call(&self) -> Need<'_>
        requires { self.now.end ≡ None }
        // The call that the definition names after these answers, with the same boot number.
        ensures next { (s : Setup) (heard : List Answered) → LeadsTo s heard self.now →
            next_call s (on heard) ≡ Some (call_of_need cluster_version result) }
        ensures due { call_of_need cluster_version result ≡ call_due self.now }
        ensures range { IsWithin cluster_version (row_place cluster_version self.now.slot + ROW_LENGTH) result.call }
        ensures disk { result.disk < self.now.disks }
    {
        Need {
            disk: self.notes.disk(),
            call: self.notes.call(),
        }
    }

    /// Hears the answer to the call that is due.
    pub fn hear(&mut self, heard: &Heard<'_>)
        requires going { self.old.end ≡ None }
        requires fits { Fits (call_due self.old).1 (heard_of cluster_version heard.now) }
        ensures leads { (s : Setup) (answers : List Answered) → LeadsTo s answers self.old →
            LeadsTo s (answers ++ answer_of self.old heard.now ∷ []) self.new }
        ensures bound { (s : Setup) (answers : List Answered) → LeadsTo s answers self.old →
            length (answers ++ answer_of self.old heard.now ∷ []) ≤ 2 * s.disks }
        ensures same { IsSameLook self.old self.new }
    {
        self.notes.hear(heard);
    }

    /// How it has ended, if it has.
    pub fn end(&self) -> Option<End>
        ensures end { (s : Setup) (heard : List Answered) → LeadsTo s heard self.now →
            option_map end_of result ≡ end_of_status (status s (on heard)) }
        ensures told { result ≡ self.now.end }
        ensures inside { IsInside self.now.disks result }
    {
        self.notes.end
    }
}
