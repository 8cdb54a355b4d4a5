ghost use Rattle.std.specs.Prelude.{◌≡◌, ◌<◌, ◌≤◌, ◌+◌, ◌*◌, ◌++◌, ◌∷◌, [], List, Some, None, length};
ghost use Rattle.std.specs.Option.{option_map};
ghost use Rattle.disk.specs.Disk as device;
ghost use Rattle.torn_block.specs.Layout.{area_place, cluster_version};
ghost use Rattle.torn_block.specs.declared.layout.TheConstants.{HOSTS, DISKS, ROW_LENGTH};
ghost use Rattle.torn_block.specs.Damage.{block_of};
ghost use Rattle.torn_block.specs.Plan.{IsReading};
ghost use Rattle.attempt.specs.History.{Fits};
ghost use Rattle.attempt.specs.DeviceCalls as calls;
ghost use Rattle.attempt.specs.DeviceCalls.{call_of_need, IsWithin};
ghost use Rattle.rounds.specs.Beat.Answers.{Answered, heard_as, on};
ghost use Rattle.rounds.specs.Beat.Kept.{IsSameBeat, LeadsTo, answer_of, call_due, end_of, end_of_status};
ghost use Rattle.rounds.specs.Beat.Status.{Setup, status, next_call};
ghost use Rattle.rounds.specs.Kept.{end_by};

use super::end::End;
use crate::round::{Round, Stage};
use attempt::{Heard, Need};
use heartbeat::{Reading, decode_area, encode_beat};
use paxos_block::{AREA_PLACE, beat_place};
use std::marker::Model;
use torn_block::{BLOCK_LENGTH, Block128, ClusterLayout, DISKS, HOSTS, ROW_LENGTH, read_block};

/// The most disks of a cluster.
pub const PLACES: usize = DISKS as usize;

/// What was read of the heartbeat areas, by the disks' numbers.
pub type Readings = [Reading; PLACES];

/// A beat of a host: on each disk it reads the heartbeat area and writes the host's own block there, with the next
/// sequence number.
///
/// It asks for one device call at a time, hears the answer, and takes no memory. It visits the disks once, by rising
/// number.
#[derive(Drop)]
pub struct Beat {
    host: u8,
    round: Round,
    /// None for a disk whose area was not read soundly.
    readings: Readings,
}

impl Model for Beat {
    ghost use Rattle.rounds.specs.Beat.Notes.{Notes, IsSound, notes_in};

    ghost Value = { Notes };

    ghost view = { λ beat. notes_in beat.host beat.round beat.readings };

    ghost invariant = { λ beat. IsSound beat.host beat.round };
}

impl Beat {
    /// A beat that has heard nothing, over the disks below `disks`.
    pub fn new(host: u8, disks: u8) -> Beat
        requires host { host < HOSTS }
        requires some { 0 < disks }
        requires few { disks ≤ DISKS }
        ensures leads { LeadsTo (record { host = host; disks = disks }) [] result }
        ensures going { result.end ≡ None }
    {
        Beat {
            host,
            round: Round::new(disks),
            readings: [None; PLACES],
        }
    }

    /// The device call that is due.
    pub fn call(&self) -> Need<'_>
        requires { self.now.end ≡ None }
        // The call that the definition names after these answers, with the same boot number and bytes.
        ensures next { (s : Setup) (heard : List Answered) → LeadsTo s heard self.now →
            next_call s (on heard) ≡ Some (call_of_need cluster_version result) }
        ensures due { call_of_need cluster_version result ≡ call_due self.now }
        ensures range { IsWithin cluster_version (area_place cluster_version + ROW_LENGTH) result.call }
        ensures disk { result.disk < self.now.disks }
    {
        self.round
            .call(AREA_PLACE, beat_place::<ClusterLayout>(self.host))
    }

    /// Hears the answer to the call that is due.
    pub fn hear(&mut self, heard: &Heard<'_>)
        requires going { self.old.end ≡ None }
        requires fits { Fits (call_due self.old).1 (calls.heard_of cluster_version heard.now) }
        ensures leads { (s : Setup) (answers : List Answered) → LeadsTo s answers self.old →
            LeadsTo s (answers ++ answer_of self.old heard.now ∷ []) self.new }
        ensures bound { (s : Setup) (answers : List Answered) → LeadsTo s answers self.old →
            length (answers ++ answer_of self.old heard.now ∷ []) ≤ 9 * s.disks }
        ensures same { IsSameBeat self.old self.new }
    {
        match heard {
            Heard::Told(area) => self.take_area(area),
            _ => self.round.hear(heard),
        }
    }

    // The area was read. If it is sound its counters are kept, even if the disk is dropped later.
    fn take_area(&mut self, area: &[u8; ROW_LENGTH])
        requires going { self.old.end ≡ None }
        requires stage { self.old.round.stage ≡ Stage.Reading }
        ensures same { IsSameBeat self.old self.new }
        ensures leads { (s : Setup) (answers : List Answered) → LeadsTo s answers self.old →
            LeadsTo s (answers ++ record { disk = self.old.disk; heard = heard_as (device.Told area.now) } ∷ []) self.new }
    {
        match decode_area(area) {
            Ok(counters) => {
                let disk = usize::from(self.round.disk);
                self.readings[disk] = Some(counters);
                self.round
                    .write(&own_block(self.host, area), &encode_beat());
            }
            Err(_) => self.round.drop_disk(),
        }
    }

    /// How it has ended, if it has.
    pub fn end(&self) -> Option<End>
        ensures end { (s : Setup) (heard : List Answered) → LeadsTo s heard self.now →
            option_map (end_of self.now) result ≡ end_of_status (status s (on heard)) }
        ensures told { result ≡ self.now.end }
    {
        ended(self.round.end)
    }

    /// What was read on each disk. None where its heartbeat area was not read soundly.
    pub fn readings(&self) -> Readings
        ensures { result ≡ self.now.readings }
    {
        self.readings
    }
}

// The end of a round, of a beat's.
fn ended(end: Option<crate::end::End>) -> Option<End>
    ensures { result ≡ option_map (end_by (λ held. End.Beaten) End.NoMajority) end }
{
    match end? {
        crate::end::End::Over { .. } => Some(End::Beaten),
        crate::end::End::NoMajority => Some(End::NoMajority),
    }
}

// The host's own block in an area.
fn own_block(host: u8, area: &[u8; ROW_LENGTH]) -> Block128
    requires { host < HOSTS }
    ensures { IsReading cluster_version (block_of cluster_version host area.now) result }
{
    let place = BLOCK_LENGTH * usize::from(host);
    read_block::<ClusterLayout>(&area[place..place + BLOCK_LENGTH])
}
