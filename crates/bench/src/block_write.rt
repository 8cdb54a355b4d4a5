ghost use Rattle.std.specs.Prelude.{◌≡◌, ◌≤◌, ◌+◌, length};

use crate::bench_failure::BenchFailure;
use crate::benchmark::Benchmark;
use disk::{Boot, Disk, SimDisk};
use std::alloc::Global;
use torn_block::{BLOCK_LENGTH, BODY_ROOM, BlockNeed, Body, ClusterLayout, WriteSteps, read_block};

/// Whole writes of one block, each of which reads the block and makes its six calls.
#[derive(Drop)]
pub struct BlockWrite {
    disk: SimDisk,
    ghost large: { length disk.disk.bytes ≡ 2048 },
}

impl Benchmark for BlockWrite {
    fn new(alloc: Global) -> Result<Self, BenchFailure> {
        let disk = SimDisk::new(alloc, 2048)?;
        Ok(BlockWrite { disk })
    }

    fn run(&mut self, count: u32) -> Result<(), BenchFailure> {
        let boot = self.disk.attach()?;
        let mut body = Body {
            bytes: [0; BODY_ROOM],
        };
        for write in 0..count {
            body.bytes[0] = (write % 251) as u8;
            write_block(&mut self.disk, boot, 0, &body)?;
        }
        Ok(())
    }
}

/// Reads the block at this place, and writes the body over it in six calls.
pub fn write_block(disk: &mut SimDisk, boot: Boot, at: u32, body: &Body) -> Result<(), BenchFailure>
    requires { at + BLOCK_LENGTH ≤ length disk.old.disk.bytes }
    ensures { length disk.new.disk.bytes ≡ length disk.old.disk.bytes }
{
    let at = u64::from(at);
    let mut block = [0; BLOCK_LENGTH];
    disk.read(boot, at, &mut block)?;
    let mut steps = WriteSteps::new::<ClusterLayout>(&read_block::<ClusterLayout>(&block), body)?;
    'calls: for _ in 0..6 {
        match steps.next() {
            None => {}
            Some(BlockNeed::Write { at: offset, bytes }) => disk.write(boot, at + offset, bytes)?,
            Some(BlockNeed::Sync) => disk.sync(boot)?,
        }
        steps.done();
    }
    if !steps.is_done() {
        return Err(BenchFailure::Wrong);
    }
    Ok(())
}
