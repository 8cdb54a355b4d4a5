use crate::bench_failure::BenchFailure;
use crate::benchmark::Benchmark;
use crate::block_write::write_block;
use disk::{Disk, SimDisk};
use paxos_block::{PBlock, Row, Value, decode_row, encode, may_say};
use std::alloc::Global;
use torn_block::{BLOCK_LENGTH, COPY_LENGTH, ClusterLayout, HOSTS, ROW_LENGTH, VALUE_LENGTH};

/// Where an input begins in its copy.
const INPUT_AT: usize = 32;

/// Reads of a row in which the block of each host was written twice.
#[derive(Drop)]
pub struct DecodeRow {
    row: [u8; ROW_LENGTH],
}

impl Benchmark for DecodeRow {
    fn new(alloc: Global) -> Result<Self, BenchFailure> {
        let mut disk = SimDisk::new(alloc, ROW_LENGTH as u64)?;
        let boot = disk.attach()?;
        'hosts: for host in 0..HOSTS {
            let ballot = host as u64 + 1;
            let promise = PBlock {
                mbal: ballot,
                bal: 0,
                inp: None,
                mark: false,
            };
            let vote = PBlock {
                mbal: ballot,
                bal: ballot,
                inp: Some([1; VALUE_LENGTH]),
                mark: false,
            };
            'copies: for says in [promise, vote] {
                if !may_say::<ClusterLayout>(host as u8, &says) {
                    return Err(BenchFailure::Wrong);
                }
                let body = encode::<ClusterLayout>(host as u8, &says);
                write_block(&mut disk, boot, (host * BLOCK_LENGTH) as u32, &body)?;
            }
        }
        let mut row = [0; ROW_LENGTH];
        disk.read(boot, 0, &mut row)?;
        Ok(DecodeRow { row })
    }

    fn run(&mut self, count: u32) -> Result<(), BenchFailure> {
        for time in 0..count {
            // The last byte of the last host's input differs from time to time.
            let last = (time % 251) as u8;
            self.row[ROW_LENGTH - COPY_LENGTH + INPUT_AT + VALUE_LENGTH - 1] = last;
            let row = decode_row::<ClusterLayout>(&self.row)?;
            if !has_votes(&row, last) {
                return Err(BenchFailure::Wrong);
            }
        }
        Ok(())
    }
}

/// Whether each host voted, the last one for an input that ends so.
fn has_votes(row: &Row<Value>, last: u8) -> bool {
    let cell = &row.cells[HOSTS - 1];
    row.cells[..HOSTS]
        .iter()
        .all(|cell| cell.says.inp.is_some())
        && cell
            .says
            .inp
            .is_some_and(|value| value[VALUE_LENGTH - 1] == last)
}
