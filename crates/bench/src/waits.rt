use crate::bench_failure::BenchFailure;
use crate::benchmark::Benchmark;
use inspect::{Blocking, blocking};
use lock_command::{
    Action, ClientNumber, Command, HostNumber, LockName, LockNumber, Mode, RequestNumber,
};
use lock_table::{Answer, Picture, Table};
use std::alloc::Global;

/// The names, a letter each.
const NAMES: &[u8; 32] = b"ABCDEFGHIJKLMNOPQRSTUVWXYZabcdef";

/// Whether 32 clients with eight locks each keep one another waiting in a circle. Each of 32 names has eight locks, of which the first is
/// granted and the others wait.
#[derive(Drop)]
pub struct Waits {
    picture: Picture,
}

impl Benchmark for Waits {
    fn new(alloc: Global) -> Result<Self, BenchFailure> {
        Ok(Waits {
            picture: crowded(alloc)?,
        })
    }

    fn run(&mut self, count: u32) -> Result<(), BenchFailure> {
        for _ in 0..count {
            if let Blocking::Cycle(_) = blocking(&self.picture) {
                return Err(BenchFailure::Wrong);
            }
        }
        Ok(())
    }
}

/// A table with all locks.
fn crowded(alloc: Global) -> Result<Picture, BenchFailure> {
    let mut table = Table::new(alloc)?;
    enqueue_all(&mut table)?;
    Ok(table.picture(alloc)?)
}

fn enqueue_all(table: &mut Table) -> Result<(), BenchFailure> {
    for place in 0..256 {
        let Some(command) = enqueue_at(place) else {
            return Err(BenchFailure::Wrong);
        };
        if let Answer::Refused(_) = table.apply(&command).answer {
            return Err(BenchFailure::Wrong);
        }
    }
    Ok(())
}

/// The enqueue at this place, from 0.
fn enqueue_at(place: u16) -> Option<Command> {
    Some(Command {
        host: HostNumber::new(0)?,
        client: ClientNumber::new((place % 32) as u8),
        request: RequestNumber::new(u64::from(place / 32) + 1)?,
        action: Action::Enqueue {
            lock: LockNumber::new(place.checked_add(1)?)?,
            name: LockName::new(&[NAMES[usize::from(place / 8) % NAMES.len()]])?,
            mode: Mode::Exclusive,
            no_queue: false,
        },
    })
}
