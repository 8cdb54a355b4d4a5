use crate::bench_failure::BenchFailure;
use crate::benchmark::Benchmark;
use lock_command::{
    Action, ClientNumber, Command, HostNumber, LockName, LockNumber, Mode, RequestNumber, decode,
};
use lock_table::{Answer, Table};
use std::alloc::Global;

/// How many clients there are. Each has a lock of its own.
const CLIENTS: u32 = 8;

/// How many locks stand in the table all the while, beside those of the clients.
const STANDING: u16 = 248;

/// Commands of eight clients to a lock table of 256 locks: each enqueues a lock, then each converts it, then each
/// releases it. The table has grown by its commands, or was carried over from such a table, as by a renewal.
#[derive(Drop)]
pub struct Apply<const RENEWED: bool> {
    table: Table,
}

impl<const RENEWED: bool> Benchmark for Apply<RENEWED> {
    fn new(alloc: Global) -> Result<Self, BenchFailure> {
        let mut grown = Table::new(alloc)?;
        stand_all(&mut grown)?;
        let table = if RENEWED {
            renewed(alloc, &grown)?
        } else {
            grown
        };
        Ok(Apply { table })
    }

    fn run(&mut self, count: u32) -> Result<(), BenchFailure> {
        for place in 0..count {
            let Some(command) = command_at(place) else {
                return Err(BenchFailure::Wrong);
            };
            if let Answer::Refused(_) = self.table.apply(&command).answer {
                return Err(BenchFailure::Wrong);
            }
        }
        Ok(())
    }
}

/// Puts all locks into the table that stand there all the while.
fn stand_all(table: &mut Table) -> Result<(), BenchFailure> {
    for place in 0..STANDING {
        let Some(command) = standing_at(place) else {
            return Err(BenchFailure::Wrong);
        };
        if table.apply(&command).answer != Answer::Granted {
            return Err(BenchFailure::Wrong);
        }
    }
    Ok(())
}

/// A new table, to which this one is carried over.
fn renewed(alloc: Global, table: &Table) -> Result<Table, BenchFailure> {
    let mut new = Table::new(alloc)?;
    for value in &table.carried_over(alloc, &[])? {
        let Some(command) = decode(value) else {
            return Err(BenchFailure::Wrong);
        };
        if let Answer::Refused(_) = new.apply(&command).answer {
            return Err(BenchFailure::Wrong);
        }
    }
    Ok(new)
}

/// The enqueue of a lock that stands all the while.
fn standing_at(place: u16) -> Option<Command> {
    Some(Command {
        host: HostNumber::new(0)?,
        client: ClientNumber::new(CLIENTS as u8),
        request: RequestNumber::new(u64::from(place) + 1)?,
        action: Action::Enqueue {
            lock: LockNumber::new(place.checked_add(CLIENTS as u16 + 1)?)?,
            name: LockName::new(b"standing")?,
            mode: Mode::ConcurrentRead,
            no_queue: false,
        },
    })
}

/// The command at this place of the list, from 0. No reply to these is a refusal.
fn command_at(place: u32) -> Option<Command> {
    let client = place % CLIENTS;
    let round = place / CLIENTS;
    Some(Command {
        host: HostNumber::new(0)?,
        client: ClientNumber::new(client as u8),
        request: RequestNumber::new(u64::from(round) + 1)?,
        action: action_at(client as u16, round)?,
    })
}

/// What a client asks in a round: its lock, then another mode of it, then its end.
fn action_at(client: u16, round: u32) -> Option<Action> {
    let lock = LockNumber::new(client.checked_add(1)?)?;
    match round % 3 {
        0 => Some(Action::Enqueue {
            lock,
            name: name_of(client)?,
            mode: Mode::ConcurrentRead,
            no_queue: false,
        }),
        1 => Some(Action::Convert {
            lock,
            mode: mode_of(client),
            no_queue: false,
            value: None,
        }),
        _ => Some(Action::Release { lock, value: None }),
    }
}

fn name_of(client: u16) -> Option<LockName> {
    if client < 4 {
        LockName::new(b"accounts")
    } else {
        LockName::new(b"orders")
    }
}

fn mode_of(client: u16) -> Mode {
    if client % 2 == 0 {
        Mode::ProtectedRead
    } else {
        Mode::ProtectedWrite
    }
}
