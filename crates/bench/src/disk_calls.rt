ghost use Rattle.std.specs.Prelude.{◌≤◌, length};

use crate::bench_failure::BenchFailure;
use crate::benchmark::Benchmark;
use disk::{Disk, SimDisk};
use std::alloc::Global;

/// The least size that the calls need.
const LEAST: u64 = 2048;

/// What is written.
const BYTES: [u8; 64] = [7; 64];

/// Device calls at the end of a simulated disk of 2 KiB and `MORE` KiB: attach, read, write and sync in turn.
#[derive(Drop)]
pub struct DiskCalls<const MORE: u16> {
    disk: SimDisk,
    ghost large: { 2048 ≤ length disk.disk.bytes },
}

impl<const MORE: u16> Benchmark for DiskCalls<MORE> {
    fn new(alloc: Global) -> Result<Self, BenchFailure> {
        let disk = SimDisk::new(alloc, LEAST + 1024 * u64::from(MORE))?;
        Ok(DiskCalls { disk })
    }

    fn run(&mut self, count: u32) -> Result<(), BenchFailure> {
        let first = self.disk.size() - LEAST;
        let mut boot = self.disk.attach()?;
        let mut row = [0; 1024];
        'calls: for call in 0..count {
            match call % 4 {
                0 => boot = self.disk.attach()?,
                1 => self.disk.read(boot, first, &mut row)?,
                2 => self.disk.write(boot, first + 1024, &BYTES)?,
                _ => self.disk.sync(boot)?,
            }
        }
        Ok(())
    }
}
