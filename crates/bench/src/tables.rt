use crate::bench_failure::BenchFailure;
use lock_command::{
    Action, ClientNumber, Command, HostNumber, LockName, LockNumber, Mode, RequestNumber,
};
use lock_table::{Answer, Table};
use std::alloc::{AllocGlobal, Global};
use std::time::{Clock, Instant};

/// How many clients there are. Each command of a kind comes from one of them, all eight after one another.
const CLIENTS: usize = 8;

/// How often all kinds of commands come in turn.
const TURNS: u64 = 300;

/// How often they do so in a table made anew. The shortest counts.
const ROUNDS: u32 = 30;

/// The kinds of commands. After each turn the table is as before.
#[derive(Clone, Copy, PartialEq, Eq)]
enum Kind {
    Enqueue,
    Convert,
    Status,
    Release,
    /// The enqueue of a lock that has to wait.
    Wait,
    /// Of a lock that waits.
    Cancel,
    /// An enqueue through the host that is purged then.
    Through,
    /// Of the eight locks that were enqueued through a host.
    Purge,
}

/// In the order in which they come.
const KINDS: [(Kind, &str); 8] = [
    (Kind::Enqueue, "enqueue"),
    (Kind::Convert, "convert"),
    (Kind::Status, "status"),
    (Kind::Release, "release"),
    (Kind::Wait, "wait"),
    (Kind::Cancel, "cancel"),
    (Kind::Through, "through"),
    (Kind::Purge, "purge"),
];

/// A table in which so many locks stand all the while, on one name or each on a name of its own.
#[derive(Clone, Copy)]
struct Shape {
    standing: u16,
    one_name: bool,
}

/// Prints what a command of each kind takes in tables of some 8 and 256 locks: `KIND_LOCKS_NAMES` and nanoseconds.
pub fn print_tables<R: Print + Clock + AllocGlobal>(rt: &R) -> Result<(), BenchFailure> {
    for (locks, standing) in [(8, 4), (256, 248)] {
        for (names, one_name) in [("one", true), ("own", false)] {
            let best = best_of(rt, rt.alloc(), Shape { standing, one_name })?;
            for at in 0..KINDS.len() {
                let (kind, name) = KINDS[at];
                let count = if kind == Kind::Purge {
                    TURNS
                } else {
                    TURNS * CLIENTS as u64
                };
                let each = best[at] / count;
                let tenth = best[at].saturating_mul(10) / count % 10;
                println!(rt; "{name}_{locks}_{names} {each}.{tenth}")?;
            }
        }
    }
    Ok(())
}

/// The shortest nanoseconds that the commands of each kind take in all turns.
fn best_of<R: Clock>(rt: &R, alloc: Global, shape: Shape) -> Result<[u64; 8], BenchFailure> {
    let mut best = [u64::MAX; 8];
    for _ in 0..ROUNDS {
        let spent = spent_in(rt, alloc, shape)?;
        for at in 0..KINDS.len() {
            best[at] = best[at].min(spent[at]);
        }
    }
    Ok(best)
}

/// The nanoseconds that the commands of each kind take in all turns, in a table made anew.
fn spent_in<R: Clock>(rt: &R, alloc: Global, shape: Shape) -> Result<[u64; 8], BenchFailure> {
    let mut table = standing(alloc, shape)?;
    all_turns(rt, &mut table, shape)
}

fn all_turns<R: Clock>(rt: &R, table: &mut Table, shape: Shape) -> Result<[u64; 8], BenchFailure> {
    let mut spent = [0u64; 8];
    for turn in 0..TURNS {
        for at in 0..KINDS.len() {
            let taken = together(rt, table, shape, KINDS[at].0, turn * 8 + at as u64)?;
            spent[at] = spent[at].saturating_add(taken);
        }
    }
    Ok(spent)
}

/// A table with the locks that stand all the while.
fn standing(alloc: Global, shape: Shape) -> Result<Table, BenchFailure> {
    let mut table = Table::new(alloc)?;
    stand_all(&mut table, shape)?;
    Ok(table)
}

fn stand_all(table: &mut Table, shape: Shape) -> Result<(), BenchFailure> {
    for place in 0..shape.standing {
        let client = CLIENTS as u8;
        let Some(command) = command_at(shape, Kind::Enqueue, client, place, u64::from(place)) else {
            return Err(BenchFailure::Wrong);
        };
        if table.apply(&command).answer != Answer::Granted {
            return Err(BenchFailure::Wrong);
        }
    }
    Ok(())
}

/// The nanoseconds that the eight commands of a kind take, or the one purge.
fn together<R: Clock>(
    rt: &R,
    table: &mut Table,
    shape: Shape,
    kind: Kind,
    request: u64,
) -> Result<u64, BenchFailure> {
    let Some(first) = command_at(shape, kind, 0, shape.standing, request) else {
        return Err(BenchFailure::Wrong);
    };
    let mut commands = [first; CLIENTS];
    for at in 1..CLIENTS {
        let place = shape.standing.saturating_add(at as u16);
        let Some(next) = command_at(shape, kind, at as u8, place, request) else {
            return Err(BenchFailure::Wrong);
        };
        commands[at] = next;
    }
    let few = if kind == Kind::Purge { 1 } else { CLIENTS };
    let start = Instant::now(rt)?;
    for command in &commands[..few] {
        if let Answer::Refused(_) = table.apply(command).answer {
            return Err(BenchFailure::Wrong);
        }
    }
    let taken = start.elapsed(rt)?;
    Ok(u64::try_from(taken.as_nanos()).unwrap_or(u64::MAX))
}

/// The command of a kind for the lock at a place. The numbers of the locks do not rise as the places do.
fn command_at(shape: Shape, kind: Kind, client: u8, place: u16, request: u64) -> Option<Command> {
    let host = if kind == Kind::Through { 1 } else { 0 };
    Some(Command {
        host: HostNumber::new(host)?,
        client: ClientNumber::new(client),
        request: RequestNumber::new(request.saturating_add(1))?,
        action: action_at(shape, kind, place)?,
    })
}

/// What a command of a kind asks of the lock at a place.
fn action_at(shape: Shape, kind: Kind, place: u16) -> Option<Action> {
    let number = place.wrapping_mul(37) % 256;
    let lock = LockNumber::new(number.saturating_add(1))?;
    match kind {
        Kind::Enqueue | Kind::Through => {
            Some(enqueue(lock, name_at(shape, place)?, Mode::ConcurrentRead))
        }
        Kind::Wait => {
            let taken = place % shape.standing.max(1);
            Some(enqueue(lock, name_at(shape, taken)?, Mode::Exclusive))
        }
        Kind::Convert => Some(Action::Convert {
            lock,
            mode: Mode::ConcurrentWrite,
            no_queue: false,
            value: None,
        }),
        Kind::Status => Some(Action::Status(lock)),
        Kind::Release => Some(Action::Release { lock, value: None }),
        Kind::Cancel => Some(Action::Cancel(lock)),
        Kind::Purge => Some(Action::Purge(HostNumber::new(1)?)),
    }
}

fn enqueue(lock: LockNumber, name: LockName, mode: Mode) -> Action {
    Action::Enqueue {
        lock,
        name,
        mode,
        no_queue: false,
    }
}

/// The name of the lock at a place.
fn name_at(shape: Shape, place: u16) -> Option<LockName> {
    row_name(if shape.one_name { 0 } else { place })
}

/// One of a thousand names: `row-`, and three digits.
pub fn row_name(at: u16) -> Option<LockName> {
    let mut text = *b"row-000";
    text[4] = b'0' + (at / 100 % 10) as u8;
    text[5] = b'0' + (at / 10 % 10) as u8;
    text[6] = b'0' + (at % 10) as u8;
    LockName::new(&text)
}
