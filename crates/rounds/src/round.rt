// What a round of the disks keeps of what it has heard, and how each answer changes it.
ghost use Rattle.std.specs.Prelude.{◌≡◌, ◌<◌, ◌≤◌, ◌+◌, ◌*◌, ◌^◌, cond};
ghost use Rattle.torn_block.specs.Layout.{cluster_version};
ghost use Rattle.torn_block.specs.declared.layout.TheConstants.{DISKS, BLOCK_LENGTH, ROW_LENGTH, COPY_LENGTH};
ghost use Rattle.torn_block.specs.Plan.{body_in};
ghost use Rattle.attempt.specs.DeviceCalls.{IsWithin, call_of_need, device_call_of};
ghost use Rattle.attempt.specs.WriteCalls.{write_due};
ghost use Rattle.rounds.specs.Kept.{IsSound, at_start, call_due, hears, succeeds, begins, passes, drops, goes_on};

use crate::end::End;
use attempt::{DeviceCall, Heard, Need};
use disk::Boot;
use torn_block::{
    BLOCK_LENGTH, BODY_ROOM, Block128, BlockNeed, Body, ClusterLayout, ROW_LENGTH, WriteSteps,
};

/// What comes next on a disk.
#[derive(Clone, Copy, Debug, PartialEq, Eq)]
pub enum Stage {
    Attaching,
    Syncing,
    Reading,
    /// One of the six calls of a write.
    Writing,
}

/// A round visits the disks once, by rising number. What is read on a disk its user judges, and says by `write`, `pass` or `drop_disk`
/// what follows there.
#[derive(Drop)]
pub struct Round {
    pub disks: u8,
    /// The disk that is visited.
    pub disk: u8,
    /// How many disks below it were dropped.
    pub lost: u8,
    /// On how many disks below it the own block is as it is to be.
    pub held: u8,
    pub stage: Stage,
    pub boot: Boot,
    pub steps: WriteSteps,
    pub end: Option<End>,
}

impl Round {
    /// A round that has heard nothing, over the disks below `disks`.
    pub fn new(disks: u8) -> Round
        requires some { 0 < disks }
        requires few { disks ≤ DISKS }
        ensures sound { IsSound result }
        ensures starts { result ≡ at_start disks result }
    {
        Round {
            disks,
            disk: 0,
            lost: 0,
            held: 0,
            stage: Stage::Attaching,
            boot: Boot { number: 0 },
            steps: no_steps(),
            end: None,
        }
    }

    /// The device call that is due, on the disk that is visited. The user reads at one of these places, and its own block is at the other.
    pub fn call(&self, reads: u64, place: u64) -> Need<'_>
        requires sound { IsSound self.now }
        requires inside { place + BLOCK_LENGTH ≤ reads + ROW_LENGTH }
        requires fits { reads + ROW_LENGTH < 2 ^ 64 }
        ensures due { call_of_need cluster_version result ≡ call_due reads place self.now }
        ensures range { IsWithin cluster_version (reads + ROW_LENGTH) result.call }
        ensures disk { result.disk < self.now.disks }
    {
        let boot = self.boot;
        let call = match self.stage {
            Stage::Attaching => DeviceCall::Attach,
            Stage::Syncing => DeviceCall::Sync { boot },
            Stage::Reading => DeviceCall::Read { boot, at: reads },
            Stage::Writing => self.write_call(place),
        };
        Need {
            disk: self.disk,
            call,
        }
    }

    // The call of the write that is under way.
    fn write_call(&self, place: u64) -> DeviceCall<'_>
        requires sound { IsSound self.now }
        requires fits { place + BLOCK_LENGTH < 2 ^ 64 }
        ensures due { device_call_of cluster_version result ≡
            write_due place self.now.boot.number self.now.steps self.now.steps.due }
        ensures range { IsWithin cluster_version (place + BLOCK_LENGTH) result }
    {
        let boot = self.boot;
        match self.steps.next() {
            Some(BlockNeed::Write { at, bytes }) => DeviceCall::Write {
                boot,
                at: place + at,
                bytes,
            },
            Some(BlockNeed::Sync) | None => DeviceCall::Sync { boot },
        }
    }

    /// Hears the answer to the call that is due. Bytes that were read change nothing yet.
    pub fn hear(&mut self, heard: &Heard<'_>)
        requires { IsSound self.old }
        ensures sound { IsSound self.new }
        ensures disks { self.new.disks ≡ self.old.disks }
        ensures step { self.new ≡ hears self.old heard.now }
    {
        match heard {
            Heard::Booted(boot) => {
                self.boot = *boot;
                self.stage = Stage::Syncing;
            }
            Heard::Done => self.succeed(),
            Heard::Told(_) => {}
            Heard::Fault(_) => self.drop_disk(),
        }
    }

    // The sync, or a call of the write, succeeded. After the last call of a write the own block is as it is to be.
    fn succeed(&mut self)
        requires { IsSound self.old }
        ensures sound { IsSound self.new }
        ensures disks { self.new.disks ≡ self.old.disks }
        ensures step { self.new ≡ succeeds self.old.stage self.old }
    {
        if self.stage == Stage::Writing {
            self.steps.done();
            if self.steps.is_done() {
                self.go_on(self.lost, self.held + 1);
            }
        } else {
            self.stage = Stage::Reading;
        }
    }

    /// A write of this body begins, over the own block as it was read. If the block has no sequence number left, the disk is dropped.
    pub fn write(&mut self, block: &Block128, body: &Body)
        requires { IsSound self.old }
        ensures sound { IsSound self.new }
        ensures disks { self.new.disks ≡ self.old.disks }
        ensures step { self.new ≡ begins self.old block.now (body_in cluster_version body.now) }
    {
        match WriteSteps::new::<ClusterLayout>(block, body) {
            Ok(steps) => {
                self.steps = steps;
                self.stage = Stage::Writing;
            }
            Err(_) => self.drop_disk(),
        }
    }

    /// Nothing is to be written on the disk: the own block is as it is to be, or it has no part in this.
    pub fn pass(&mut self, held: bool)
        requires { IsSound self.old }
        ensures sound { IsSound self.new }
        ensures disks { self.new.disks ≡ self.old.disks }
        ensures step { self.new ≡ passes self.old held }
    {
        let held = if held { self.held + 1 } else { self.held };
        self.go_on(self.lost, held);
    }

    /// A bad answer drops the disk for the rest of the round.
    pub fn drop_disk(&mut self)
        requires { IsSound self.old }
        ensures sound { IsSound self.new }
        ensures disks { self.new.disks ≡ self.old.disks }
        ensures step { self.new ≡ drops self.old }
    {
        self.go_on(self.lost + 1, self.held);
    }

    // The disk that was visited is done with. So many of the disks up to it were dropped, and on so many the own block is as it is to be.
    fn go_on(&mut self, lost: u8, held: u8)
        requires sound { IsSound self.old }
        requires lost { lost ≤ self.old.disk + 1 }
        requires held { held ≤ self.old.disk + 1 }
        ensures sound { IsSound self.new }
        ensures disks { self.new.disks ≡ self.old.disks }
        ensures step { self.new ≡ goes_on self.old lost held }
    {
        if self.disks <= 2 * lost {
            self.end = Some(End::NoMajority);
        } else if self.disk + 1 == self.disks {
            self.end = Some(End::Over { held });
        } else {
            self.disk += 1;
            self.lost = lost;
            self.held = held;
            self.stage = Stage::Attaching;
        }
    }
}

// A placeholder while no write is under way. Each write replaces it before it is used.
fn no_steps() -> WriteSteps
    ensures { result.size ≡ COPY_LENGTH }
{
    let body = Body {
        bytes: [0; BODY_ROOM],
    };
    WriteSteps::new::<ClusterLayout>(&Block128::BLANK, &body).unwrap()
}
