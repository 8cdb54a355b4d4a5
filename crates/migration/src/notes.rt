// What a migration keeps of what it has heard, and how each answer changes it.
ghost use Rattle.std.specs.Prelude.{◌≡◌, ◌<◌, ◌≤◌, ◌+◌, ◌++◌, ◌∷◌, [], ℕ, None, Some, IsSome, length, false, slice_get};
ghost use Rattle.torn_block.specs.Layout.{cluster_version};
ghost use Rattle.disk.specs.Disk as answers;
ghost use Rattle.paxos_block.specs.Places.{image_length};
ghost use Rattle.attempt.specs.DeviceCalls.{IsWithin, device_call_of};
ghost use Rattle.migration.specs.Heard.{at_first, hears};
ghost use Rattle.paxos_block.specs.Image.{block_for};
ghost use Rattle.migration.specs.Kept.{IsSound, FitsStage, device_answer, call_due, progress_of, going_on, left_from, fills_later, setup_by, setup_of};
ghost use Rattle.migration.specs.Plan.{on};

use crate::block::block_for;
use crate::end::End;
use attempt::{DeviceCall, Heard};
use disk::Boot;
use paxos_block::{Config, Header, Value, block_place, encode_header};
use torn_block::{BLOCK_LENGTH, ClusterLayout, DISKS, HEADER_LENGTH, OPEN_GATE};

/// The most disks of a cluster.
const PLACES: usize = DISKS as usize;

/// What comes next on a disk.
#[derive(Clone, Copy, Debug, PartialEq, Eq)]
pub enum Stage {
    Attaching,
    /// The block of a slot of the log.
    PuttingBlock,
    /// All blocks are put.
    SyncingBlocks,
    /// All of the header but its gate.
    PuttingHeader,
    SyncingHeader,
    /// All disks are filled.
    OpeningGate,
    SyncingGate,
}

#[derive(Drop)]
pub struct Notes {
    pub config: Config,
    pub cluster: u64,
    pub log: Vec<Value>,
    /// The disk that is visited.
    pub disk: u8,
    pub stage: Stage,
    /// The slot whose block is put.
    pub slot: u16,
    /// The boot number of each disk, as it was attached.
    pub boots: [Boot; PLACES],
    /// The block and the header that are put.
    pub block: [u8; BLOCK_LENGTH],
    pub header: [u8; HEADER_LENGTH],
    pub end: Option<End>,
}

impl Notes {
    /// The notes of a migration that has heard nothing.
    pub fn new(config: Config, cluster: u64, log: Vec<Value>) -> Notes
        requires { length log.items ≤ config.slots }
        ensures sound { IsSound result }
        ensures going { result.end ≡ None }
        ensures of { setup_of result ≡ setup_by config cluster log.items }
        ensures first { progress_of result ≡ at_first (setup_of result) }
    {
        // Called for their contracts only: there are disks and slots, but not too many.
        let (_disks, _slots) = (config.disks(), config.slots());
        Notes {
            config,
            cluster,
            log,
            disk: 0,
            stage: Stage::Attaching,
            slot: 0,
            boots: [Boot { number: 0 }; PLACES],
            block: [0; BLOCK_LENGTH],
            header: [0; HEADER_LENGTH],
            end: None,
        }
    }

    /// The device call that is due, on the disk that is visited.
    pub fn call(&self) -> DeviceCall<'_>
        requires { IsSound self.now }
        ensures due { (self.now.disk, device_call_of cluster_version result) ≡ call_due self.now }
        ensures range { IsWithin cluster_version (image_length cluster_version self.now.config.slots) result }
    {
        let boot = self.boots[usize::from(self.disk)];
        match self.stage {
            Stage::Attaching => DeviceCall::Attach,
            Stage::PuttingBlock => DeviceCall::Write {
                boot,
                at: block_place::<ClusterLayout>(u32::from(self.slot), 0),
                bytes: &self.block,
            },
            Stage::PuttingHeader => DeviceCall::Write {
                boot,
                at: 1,
                bytes: &self.header[1..],
            },
            Stage::OpeningGate => DeviceCall::Write {
                boot,
                at: 0,
                bytes: &[OPEN_GATE],
            },
            Stage::SyncingBlocks | Stage::SyncingHeader | Stage::SyncingGate => {
                DeviceCall::Sync { boot }
            }
        }
    }

    /// Hears the answer to the call that is due.
    pub fn hear(&mut self, heard: &Heard<'_>)
        requires sound { IsSound self.old }
        requires going { self.old.end ≡ None }
        requires fits { FitsStage self.old.stage heard.now }
        ensures sound { IsSound self.new }
        ensures same { setup_of self.new ≡ setup_of self.old }
        ensures hears { progress_of self.new ≡ hears (progress_of self.old) (device_answer heard.now) }
    {
        match heard {
            Heard::Booted(boot) => self.attach(*boot),
            Heard::Done => self.succeed(),
            Heard::Told(_) => unreachable!(),
            Heard::Fault(_) => self.end = Some(End::MigrationFailed),
        }
    }

    // The disk was attached.
    fn attach(&mut self, boot: Boot)
        requires sound { IsSound self.old }
        requires going { self.old.end ≡ None }
        requires stage { self.old.stage ≡ Stage.Attaching }
        ensures sound { IsSound self.new }
        ensures same { setup_of self.new ≡ setup_of self.old }
        ensures hears { progress_of self.new ≡ hears (progress_of self.old) (answers.Booted boot.number) }
    {
        self.boots[usize::from(self.disk)] = boot;
        self.go_on_from(0);
    }

    // A write or a sync succeeded.
    fn succeed(&mut self)
        requires sound { IsSound self.old }
        requires going { self.old.end ≡ None }
        requires stage { FitsStage self.old.stage Heard.Done }
        ensures sound { IsSound self.new }
        ensures same { setup_of self.new ≡ setup_of self.old }
        ensures hears { progress_of self.new ≡ hears (progress_of self.old) answers.Done }
    {
        match self.stage {
            Stage::Attaching => unreachable!(),
            Stage::PuttingBlock => self.go_on_from(self.slot + 1),
            Stage::SyncingBlocks => self.put_header(),
            Stage::PuttingHeader => self.stage = Stage::SyncingHeader,
            Stage::SyncingHeader => self.leave_filled(),
            Stage::OpeningGate => self.stage = Stage::SyncingGate,
            Stage::SyncingGate => self.leave_open(),
        }
    }

    // The block of this slot is put next, or all are put.
    fn go_on_from(&mut self, slot: u16)
        requires sound { IsSound self.old }
        requires going { self.old.end ≡ None }
        ensures sound { IsSound self.new }
        ensures same { setup_of self.new ≡ setup_of self.old }
        ensures goes { progress_of self.new ≡
            going_on self.old (on self.old.disk (left_from self.old slot) ++ fills_later self.old) }
    {
        let at = usize::from(slot);
        if at < self.log.len() {
            self.block = block_for(&self.log[at]);
            self.slot = slot;
            self.stage = Stage::PuttingBlock;
        } else {
            self.stage = Stage::SyncingBlocks;
        }
    }

    // All blocks of the disk are synced.
    fn put_header(&mut self)
        requires sound { IsSound self.old }
        requires going { self.old.end ≡ None }
        requires stage { self.old.stage ≡ Stage.SyncingBlocks }
        ensures sound { IsSound self.new }
        ensures same { setup_of self.new ≡ setup_of self.old }
        ensures hears { progress_of self.new ≡ hears (progress_of self.old) answers.Done }
    {
        self.header = encode_header::<ClusterLayout>(&Header {
            disk: self.disk,
            disks: self.config.disks(),
            slots: u32::from(self.config.slots()),
            cluster: self.cluster,
        });
        self.stage = Stage::PuttingHeader;
    }

    // The disk is filled. The next one follows, or the gates of all.
    fn leave_filled(&mut self)
        requires sound { IsSound self.old }
        requires going { self.old.end ≡ None }
        requires stage { self.old.stage ≡ Stage.SyncingHeader }
        ensures sound { IsSound self.new }
        ensures same { setup_of self.new ≡ setup_of self.old }
        ensures hears { progress_of self.new ≡ hears (progress_of self.old) answers.Done }
    {
        if self.disk + 1 < self.config.disks() {
            self.disk += 1;
            self.stage = Stage::Attaching;
        } else {
            self.disk = 0;
            self.stage = Stage::OpeningGate;
        }
    }

    // The disk's gate stands open. The next one's follows, or the end.
    fn leave_open(&mut self)
        requires sound { IsSound self.old }
        requires going { self.old.end ≡ None }
        requires stage { self.old.stage ≡ Stage.SyncingGate }
        ensures sound { IsSound self.new }
        ensures same { setup_of self.new ≡ setup_of self.old }
        ensures hears { progress_of self.new ≡ hears (progress_of self.old) answers.Done }
    {
        if self.disk + 1 < self.config.disks() {
            self.disk += 1;
            self.stage = Stage::OpeningGate;
        } else {
            self.end = Some(End::Migrated);
        }
    }
}
