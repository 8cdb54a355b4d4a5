// What a look keeps of what it has heard, and how each answer changes it.
ghost use Rattle.std.specs.Prelude.{◌≡◌, ◌<◌, ◌≤◌, ◌+◌, ℕ, List, true, [], Some, None};
ghost use Rattle.torn_block.specs.Layout.{cluster_version};
ghost use Rattle.torn_block.specs.declared.layout.TheConstants.{DISKS, ROW_LENGTH};
ghost use Rattle.paxos_block.specs.Places.{row_place};
ghost use Rattle.paxos_block.specs.Row.{DecodedBlock, decoded_row};
ghost use Rattle.paxos_block.specs.Votes.{marked_in};
ghost use Rattle.attempt.specs.DeviceCalls.{IsWithin, device_call_of, heard_of};
ghost use Rattle.attempt.specs.Answers as answers;
ghost use Rattle.attempt.specs.Answers.{Answers, more};
ghost use Rattle.rounds.specs.Look.Kept.{IsSound, IsSameLook, AreAsked, IsPast, Follows, FitsStage, disk_at, disk_of, turn_of, setup_of, call_at};

use super::end::End;
use attempt::{DeviceCall, Heard};
use disk::Boot;
use paxos_block::{PBlock, Value, read_gist, row_place};
use torn_block::{ClusterLayout, ROW_LENGTH};

/// What comes next on a disk.
#[derive(Clone, Copy, Debug, PartialEq, Eq)]
pub enum Stage {
    Attaching,
    /// The slot's row.
    Reading { boot: Boot },
}

#[derive(Drop)]
pub struct Notes {
    pub slot: u16,
    pub disks: u8,
    /// The disk that is asked first.
    pub first: u8,
    /// How many disks are done with.
    pub asked: u8,
    /// How many of them have shown a sound row without a mark.
    pub unmarked: u8,
    pub stage: Stage,
    pub end: Option<End>,
}

impl Notes {
    /// The notes of a look that has heard nothing.
    pub fn new(slot: u16, disks: u8, first: u8) -> Notes
        requires first { first < disks }
        requires few { disks ≤ DISKS }
        ensures sound { IsSound result }
        ensures going { result.end ≡ None }
        ensures of { setup_of result ≡ record { slot = slot; disks = disks; first = first } }
        ensures follows { Follows (λ d. []) result }
    {
        Notes {
            slot,
            disks,
            first,
            asked: 0,
            unmarked: 0,
            stage: Stage::Attaching,
            end: None,
        }
    }

    /// The disk that is asked now: after the first the others follow by rising number.
    pub fn disk(&self) -> u8
        requires { IsSound self.now }
        ensures disk { result ≡ disk_of self.now }
        ensures below { result < self.now.disks }
    {
        if self.asked == 0 {
            self.first
        } else if self.asked <= self.first {
            self.asked - 1
        } else {
            self.asked
        }
    }

    /// The device call that is due, on that disk.
    pub fn call(&self) -> DeviceCall<'_>
        ensures due { device_call_of cluster_version result ≡ call_at self.now.stage self.now.slot }
        ensures range { IsWithin cluster_version (row_place cluster_version self.now.slot + ROW_LENGTH) result }
    {
        match self.stage {
            Stage::Attaching => DeviceCall::Attach,
            Stage::Reading { boot } => DeviceCall::Read {
                boot,
                at: row_place::<ClusterLayout>(u32::from(self.slot)),
            },
        }
    }

    /// Hears the answer to the call that is due.
    pub fn hear(&mut self, heard: &Heard<'_>)
        requires sound { IsSound self.old }
        requires going { self.old.end ≡ None }
        requires fits { FitsStage self.old.stage heard.now }
        ensures sound { IsSound self.new }
        ensures same { IsSameLook self.old self.new }
        ensures follows { (f : Answers) → Follows f self.old →
            Follows (more f (disk_of self.old) (heard_of cluster_version heard.now)) self.new }
    {
        match heard {
            Heard::Booted(boot) => self.stage = Stage::Reading { boot: *boot },
            Heard::Told(bytes) => self.hear_row(bytes),
            // Neither a disk's boot number nor its row: the next disk is asked.
            Heard::Done | Heard::Fault(_) => self.pass_over(),
        }
    }

    // The bytes of the row were read. What is made of them is a local variable here, and not in the caller: a function sets up its
    // locals at each call.
    #[inline(never)]
    fn hear_row(&mut self, bytes: &[u8; ROW_LENGTH])
        requires sound { IsSound self.old }
        requires going { self.old.end ≡ None }
        requires stage { (boot : _) × (self.old.stage ≡ Stage.Reading boot) }
        ensures sound { IsSound self.new }
        ensures same { IsSameLook self.old self.new }
        ensures follows { (f : Answers) → Follows f self.old →
            Follows (more f (disk_of self.old) (answers.Told (decoded_row cluster_version bytes.now))) self.new }
    {
        // Of the gist the mark alone is looked at, which is the same for every host and whatever vote was found before.
        match read_gist::<ClusterLayout>(bytes, 0, &PBlock::blank()) {
            Ok(gist) => self.take_row(gist.marked),
            Err(_) => self.pass_over(),
        }
    }

    // A sound row was read, and its first marked block has this input. That tells the slot's value.
    fn take_row(&mut self, mark: Option<Value>)
        requires sound { IsSound self.old }
        requires going { self.old.end ≡ None }
        requires stage { (boot : _) × (self.old.stage ≡ Stage.Reading boot) }
        ensures sound { IsSound self.new }
        ensures same { IsSameLook self.old self.new }
        ensures follows { (f : Answers) (row : List DecodedBlock) →
            marked_in cluster_version row ≡ mark → Follows f self.old →
            Follows (more f (disk_of self.old) (answers.Told (Some row))) self.new }
    {
        match mark {
            Some(value) => {
                let disk = self.disk();
                self.end = Some(End::Decided { disk, value });
            }
            None => self.go_on(self.unmarked + 1),
        }
    }

    // A bad answer: the disk has no part in this look.
    fn pass_over(&mut self)
        requires sound { IsSound self.old }
        requires going { self.old.end ≡ None }
        ensures sound { IsSound self.new }
        ensures same { IsSameLook self.old self.new }
        ensures follows { (f : Answers) (x : answers.Heard) → Follows f self.old →
            answers.is_bad x ≡ true → Follows (more f (disk_of self.old) x) self.new }
    {
        self.go_on(self.unmarked);
    }

    // The disk that was asked is done with, and has shown no mark. So many up to it have shown a sound row, and the others failed.
    fn go_on(&mut self, unmarked: u8)
        requires sound { IsSound self.old }
        requires going { self.old.end ≡ None }
        requires unmarked { unmarked ≤ self.old.asked + 1 }
        ensures sound { IsSound self.new }
        ensures same { IsSameLook self.old self.new }
        ensures follows { (f : Answers) → AreAsked (setup_of self.old) f (self.old.asked + 1) unmarked →
            ((d : ℕ) → self.old.asked < turn_of self.old.first d → f d ≡ []) → Follows f self.new }
    {
        let asked = self.asked + 1;
        let failed = asked - unmarked;
        if self.disks < 2 * unmarked {
            self.end = Some(End::Unmarked);
        } else if self.disks <= 2 * failed {
            self.end = Some(End::NoMajority);
        } else {
            self.asked = asked;
            self.unmarked = unmarked;
            self.stage = Stage::Attaching;
        }
    }
}
