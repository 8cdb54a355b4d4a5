ghost use Rattle.std.specs.Prelude.{◌≡◌, ◌≤◌, ◌<◌, ◌+◌, vec_len};
ghost use Rattle.torn_block.specs.Layout.{cluster_version};
ghost use Rattle.torn_block.specs.declared.layout.TheConstants.{COPY_LENGTH, DISKS, ROW_LENGTH, SLOTS};
ghost use Rattle.paxos_block.specs.Places;

use crate::bench_failure::BenchFailure;
use crate::benchmark::Benchmark;
use paxos_block::{image_length, row_place};
use std::alloc::{AllocError, Global};
use torn_block::{COPY_LENGTH, ClusterLayout, DISKS, ROW_LENGTH, SLOTS};

/// Each byte that is written.
const BYTE: u8 = 7;

/// The bytes that an attempt moves, copied and nothing else.
#[derive(Drop)]
pub struct Copies {
    buffers: Vec<Buffer>,
    row: [u8; ROW_LENGTH],
    ghost seven: { vec_len buffers ≡ DISKS },
}

/// As many bytes as an image for all slots has.
#[derive(Drop)]
struct Buffer {
    bytes: Vec<u8>,
    ghost whole: { vec_len bytes ≡ Places.image_length cluster_version SLOTS },
}

impl Copies {
    /// Copies what an attempt on this blank slot reads and writes, in its order.
    fn copy(&mut self, slot: u16)
        requires { slot < SLOTS }
    {
        let at = row_place::<ClusterLayout>(u32::from(slot)) as usize;
        for disk in 0..usize::from(DISKS) {
            self.buffers[disk].read(at, &mut self.row);
        }
        for half in 0..2 {
            for disk in 0..usize::from(DISKS) {
                self.buffers[disk].write(at + COPY_LENGTH * half);
                self.buffers[disk].read(at, &mut self.row);
            }
        }
    }
}

impl Buffer {
    fn new(alloc: Global) -> Result<Buffer, AllocError> {
        Ok(Buffer {
            bytes: vec![in alloc; 0; image_length::<ClusterLayout>(SLOTS) as usize]?,
        })
    }

    /// Copies the row at this place.
    fn read(&self, at: usize, row: &mut [u8; ROW_LENGTH])
        requires { at + ROW_LENGTH ≤ Places.image_length cluster_version SLOTS }
    {
        row.copy_from_slice(&self.bytes[at..at + ROW_LENGTH]);
    }

    /// Puts a copy at this place: all but its first byte, and then that.
    fn write(&mut self, at: usize)
        requires { at + COPY_LENGTH ≤ Places.image_length cluster_version SLOTS }
    {
        let copy = [BYTE; COPY_LENGTH];
        self.bytes[at + 1..at + COPY_LENGTH].copy_from_slice(&copy[1..]);
        self.bytes[at..at + 1].copy_from_slice(&copy[..1]);
    }
}

impl Benchmark for Copies {
    fn new(alloc: Global) -> Result<Self, BenchFailure> {
        let mut buffers = Vec::new(alloc);
        'buffers: for _ in 0..DISKS {
            buffers.push(Buffer::new(alloc)?).map_err(AllocError::from)?;
        }
        Ok(Copies {
            buffers,
            row: [0; ROW_LENGTH],
        })
    }

    fn run(&mut self, count: u32) -> Result<(), BenchFailure> {
        if SLOTS < count {
            return Err(BenchFailure::Wrong);
        }
        for slot in 0..count {
            self.copy(slot as u16);
            if self.row[COPY_LENGTH] != BYTE {
                return Err(BenchFailure::Wrong);
            }
        }
        Ok(())
    }
}
