ghost use Rattle.std.specs.Prelude.{◌≡◌, false, None};
ghost use Rattle.torn_block.specs.declared.layout.TheConstants.{SLOTS};
ghost use Rattle.slot_log.specs.Kept.{is_idle, offered_of};

use crate::bench_failure::BenchFailure;
use crate::benchmark::Benchmark;
use crate::image::Image;
use paxos_block::{Config, Value};
use slot_log::{Learner, LogOutcome};
use std::alloc::Global;
use torn_block::{ClusterLayout, ROW_LENGTH, SLOTS, VALUE_LENGTH};

/// The device calls of an attempt on a disk: attach, sync and read, then two block writes of six calls, each followed by a read.
const CALLS: u32 = 17;

/// Values that host 0 puts into the log over one simulated disk, where `LEARNED` slots are learned beforehand.
#[derive(Drop)]
pub struct Learn<const LEARNED: u16> {
    learner: Learner<ClusterLayout>,
    image: Image,
    row: [u8; ROW_LENGTH],
    ghost whole: { learner.shape.slots ≡ SLOTS },
}

impl<const LEARNED: u16> Learn<LEARNED> {
    /// Learns a value at the next slot. That takes all calls that an attempt may make, and no less.
    fn learn_next(&mut self) -> Result<(), BenchFailure> {
        if !self.learner.idle() {
            return Err(BenchFailure::Wrong);
        }
        let slot = self.learner.learned().len() as u16;
        let value = value_at(slot);
        self.learner.place(value, 1);
        for _ in 0..CALLS {
            if self.learner.idle() || self.learner.offered().is_some() {
                return Err(BenchFailure::Wrong);
            }
            self.step();
        }
        if self.learner.offered() != Some(value) {
            return Err(BenchFailure::Wrong);
        }
        self.learner.take(true);
        if self.learner.said() != Some(LogOutcome::Placed { slot }) {
            return Err(BenchFailure::Wrong);
        }
        Ok(())
    }

    /// Makes the learner's next device call.
    fn step(&mut self)
        requires busy { is_idle self.old.learner ≡ false }
        requires judged { offered_of self.old.learner ≡ None }
    {
        let need = self.learner.call();
        let heard = self.image.answer(&need.call, &mut self.row);
        self.learner.hear(&heard);
    }
}

impl<const LEARNED: u16> Benchmark for Learn<LEARNED> {
    fn new(alloc: Global) -> Result<Self, BenchFailure> {
        let Some(config) = Config::new(1, SLOTS as u16) else {
            return Err(BenchFailure::Wrong);
        };
        let mut log = Learn {
            learner: Learner::<ClusterLayout>::new(alloc, 0, config)?,
            image: Image::new(alloc)?,
            row: [0; ROW_LENGTH],
        };
        for _ in 0..LEARNED {
            log.learn_next()?;
        }
        Ok(log)
    }

    fn run(&mut self, count: u32) -> Result<(), BenchFailure> {
        for _ in 0..count {
            self.learn_next()?;
        }
        Ok(())
    }
}

/// What is put at this slot.
fn value_at(slot: u16) -> Value {
    let mut value = [7; VALUE_LENGTH];
    value[..2].copy_from_slice(&slot.to_be_bytes());
    value
}
