ghost use Rattle.std.specs.Prelude.{◌≡◌, ◌<◌, vec_len, None};
ghost use Rattle.torn_block.specs.declared.layout.TheConstants.{DISKS, SLOTS};
ghost use Rattle.bench.specs.WholeAttempt.{IsOnImages};

use crate::bench_failure::BenchFailure;
use crate::benchmark::Benchmark;
use crate::image::Image;
use paxos_block::Value;
use phases::{Attempt, End};
use std::alloc::{AllocError, Global};
use torn_block::{ClusterLayout, DISKS, ROW_LENGTH, SLOTS, VALUE_LENGTH};

/// The device calls of an attempt on a disk: attach, sync and read, then two block writes of six calls, each followed by a read.
const CALLS: u32 = 17;

/// Attempts of host 0 over seven simulated disks, each on the next slot, which is blank.
#[derive(Drop)]
pub struct WholeAttempt {
    images: Vec<Image>,
    row: [u8; ROW_LENGTH],
    ghost seven: { vec_len images ≡ DISKS },
}

impl WholeAttempt {
    /// Commits an input for the slot. That takes all calls that an attempt may make, and no less.
    fn commit(&mut self, slot: u16) -> Result<(), BenchFailure>
        requires { slot < SLOTS }
    {
        let input: Value = [7; VALUE_LENGTH];
        let mut attempt = Attempt::<ClusterLayout>::new(0, slot, DISKS, 0, Some(input));
        'calls: for _ in 0..CALLS * u32::from(DISKS) {
            if attempt.end().is_some() {
                return Err(BenchFailure::Wrong);
            }
            self.step(&mut attempt);
        }
        if attempt.end() != Some(End::Committed(input)) {
            return Err(BenchFailure::Wrong);
        }
        Ok(())
    }

    /// Makes the attempt's next device call.
    fn step(&mut self, attempt: &mut Attempt<ClusterLayout>)
        requires going { attempt.old.end ≡ None }
        requires images { IsOnImages attempt.old }
        ensures { IsOnImages attempt.new }
    {
        let need = attempt.call();
        let image = &mut self.images[usize::from(need.disk)];
        let heard = image.answer(&need.call, &mut self.row);
        attempt.hear(&heard);
    }
}

impl Benchmark for WholeAttempt {
    fn new(alloc: Global) -> Result<Self, BenchFailure> {
        let mut images = Vec::new(alloc);
        'images: for _ in 0..DISKS {
            images.push(Image::new(alloc)?).map_err(AllocError::from)?;
        }
        Ok(WholeAttempt {
            images,
            row: [0; ROW_LENGTH],
        })
    }

    fn run(&mut self, count: u32) -> Result<(), BenchFailure> {
        if SLOTS < count {
            return Err(BenchFailure::Wrong);
        }
        for slot in 0..count {
            self.commit(slot as u16)?;
        }
        Ok(())
    }
}
