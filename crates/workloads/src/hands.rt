ghost use Rattle.std.specs.Prelude.{◌≤◌};

use crate::commands::value_of;
use crate::digest::Digest;
use crate::failure::Failure;
use crate::names::drawn_names;
use crate::numbers::Numbers;
use crate::sessions::{Asked, Sessions, Wish};
use crate::words::Size;
use lock_command::{HostNumber, LockName, Mode, ValueBytes};
use std::alloc::{AllocError, Global};
use std::collections::VecDeque;

/// How many tables there are.
const TABLES: u32 = 160;

/// How often somebody does something with a table.
const EVENTS: u16 = 25_600;

/// How many of a table's names are handed on, one after the other.
const HANDED: usize = 4;

/// Sessions of a few hosts hand locks on, in tables of 0 to 240 other locks. A session takes a lock on a name, mostly for itself alone, waits where others have it, and
/// gives it back, which grants it to the one that has waited longest. Now and then the state of a lock is asked for, a value is stored, a lock is converted, somebody
/// gives up, a command comes again, or one of the other locks gets a new number. After some turns it is another name.
pub fn hand_on(alloc: Global, size: Size, seed: u32) -> Result<Digest, Failure> {
    let mut digest = Digest::new();
    for table in 0..size.rounds(TABLES) {
        let mut turns = Turns::new(alloc, table, Numbers::new(seed, table), digest)?;
        for _ in 0..size.length(EVENTS) {
            turns.go_on()?;
        }
        digest = turns.end(alloc)?;
    }
    Ok(digest)
}

/// What somebody does with a table.
enum Event {
    Take,
    Give,
    GiveUp,
    Convert,
    Status,
    TakeAnew,
    Repeat,
}

/// A lock on a name of its own.
#[derive(Clone, Copy)]
struct Other {
    name: LockName,
    asked: Asked,
}

/// Sessions that take turns.
#[derive(Drop)]
struct Turns {
    numbers: Numbers,
    sessions: Sessions,
    /// The names that are handed on.
    names: Vec<LockName>,
    others: Vec<Other>,
    /// The hosts of the sessions that neither have a lock nor wait for one.
    idle: Vec<HostNumber>,
    /// What the other sessions asked for, in its order: the first has its lock.
    queue: VecDeque<Asked>,
    /// The place of the name that is handed on now, and how many turns are left of it.
    name: usize,
    left: u64,
}

impl Turns {
    fn new(
        alloc: Global,
        table: u32,
        mut numbers: Numbers,
        digest: Digest,
    ) -> Result<Turns, Failure> {
        let count = others_of(table, numbers.next());
        let shared = numbers.next() % 2 == 0;
        let mut names = drawn_names(alloc, HANDED as u64 + count, &mut numbers)?;
        let idle = hosts_of(alloc, shared, &mut numbers)?;
        let mut sessions = Sessions::new(alloc, shared, &mut numbers, digest)?;
        let mut others = Vec::new(alloc);
        for _ in 0..count {
            let other = take_other(&mut sessions, names.pop(), numbers.next())?;
            others.push(other).map_err(AllocError::from)?;
        }
        Ok(Turns {
            numbers,
            sessions,
            names,
            others,
            idle,
            queue: VecDeque::new(alloc),
            name: 0,
            left: 0,
        })
    }

    fn end(self, alloc: Global) -> Result<Digest, Failure> {
        self.sessions.end(alloc)
    }

    fn go_on(&mut self) -> Result<(), Failure> {
        let drawn = self.numbers.next();
        match self.next_event(drawn % 64) {
            Event::Take => self.take(drawn >> 8),
            Event::Give => self.give(drawn >> 8),
            Event::GiveUp => self.give_up(),
            Event::Convert => self.convert(drawn >> 8),
            Event::Status => self.status(drawn >> 8),
            Event::TakeAnew => self.take_anew(drawn >> 8),
            Event::Repeat => {
                self.sessions.repeat();
                Ok(())
            }
        }
    }

    /// Of 64 events 57 hand the lock on.
    fn next_event(&self, drawn: u64) -> Event {
        match drawn {
            0 | 1 => Event::Status,
            2 | 3 => Event::Convert,
            4 => Event::GiveUp,
            5 => Event::TakeAnew,
            6 => Event::Repeat,
            _ if self.queue.is_empty() => Event::Take,
            _ if self.idle.is_empty() => Event::Give,
            other if other % 2 == 0 => Event::Take,
            _ => Event::Give,
        }
    }

    /// One of the idle sessions asks for a lock.
    fn take(&mut self, drawn: u64) -> Result<(), Failure> {
        let count = self.idle.len();
        if count == 0 {
            return Ok(());
        }
        let host = self.idle.swap_remove(drawn as usize % count);
        let Some(&name) = self.names.get(self.name) else {
            return Err(Failure::Wrong);
        };
        let wish = wish_of(name, self.queue.is_empty(), drawn >> 8);
        let asked = self.sessions.take(host, &wish)?;
        self.queue.push_back(asked).map_err(AllocError::from)?;
        Ok(())
    }

    /// The first gives its lock to the next one.
    fn give(&mut self, drawn: u64) -> Result<(), Failure> {
        let Some(first) = self.queue.pop_front() else {
            return Ok(());
        };
        let value = self.value(drawn);
        self.sessions.give(&first, value)?;
        self.idle.push(first.host).map_err(AllocError::from)?;
        self.count_turn(drawn >> 8);
        Ok(())
    }

    /// After some turns it is another name.
    fn count_turn(&mut self, drawn: u64) {
        if self.left == 0 {
            self.name = drawn as usize % HANDED;
            self.left = (drawn >> 8) % 64;
        } else {
            self.left -= 1;
        }
    }

    /// The last one gives up.
    fn give_up(&mut self) -> Result<(), Failure> {
        let Some(last) = self.queue.pop_back() else {
            return Ok(());
        };
        self.sessions.give(&last, None)?;
        self.idle.push(last.host).map_err(AllocError::from)?;
        Ok(())
    }

    /// The first converts its lock, so that others may read, or so that they may not any more.
    fn convert(&mut self, drawn: u64) -> Result<(), Failure> {
        let value = self.value(drawn >> 8);
        let mode = if drawn % 2 == 0 {
            Mode::ProtectedRead
        } else {
            Mode::Exclusive
        };
        match self.queue.front() {
            Some(first) => self.sessions.convert(first, mode, value),
            None => Ok(()),
        }
    }

    /// Asks for the state of a lock.
    fn status(&mut self, drawn: u64) -> Result<(), Failure> {
        match self.any_lock(drawn) {
            Some(asked) => self.sessions.status(&asked),
            None => Ok(()),
        }
    }

    /// A lock of the queue, or another one.
    fn any_lock(&self, drawn: u64) -> Option<Asked> {
        let at = (drawn >> 8) as usize;
        if drawn % 2 == 0 {
            let place = at.checked_rem(self.queue.len())?;
            self.queue.get(place).copied()
        } else {
            let place = at.checked_rem(self.others.len())?;
            Some(self.others.get(place)?.asked)
        }
    }

    /// The session of another lock gives it back, and takes it again.
    fn take_anew(&mut self, drawn: u64) -> Result<(), Failure> {
        let count = self.others.len();
        if count == 0 {
            return Ok(());
        }
        let at = drawn as usize % count;
        let Other { name, asked } = self.others[at];
        self.sessions.give(&asked, None)?;
        let wish = wish_of(name, true, drawn >> 8);
        let asked = self.sessions.take(asked.host, &wish)?;
        self.others[at] = Other { name, asked };
        Ok(())
    }

    /// One value in four is given.
    fn value(&mut self, drawn: u64) -> Option<ValueBytes> {
        if drawn % 4 == 0 {
            Some(value_of(self.numbers.next()))
        } else {
            None
        }
    }
}

/// How many other locks a table has: none, few or many.
fn others_of(table: u32, drawn: u64) -> u64
    ensures { result ≤ 240 }
{
    match table % 4 {
        0 => drawn % 241,
        1 => drawn % 65,
        2 => drawn % 9,
        _ => 0,
    }
}

/// The hosts of two to eight sessions. Each session has its own, unless host numbers are shared: then they are of three hosts.
fn hosts_of(
    alloc: Global,
    shared: bool,
    numbers: &mut Numbers,
) -> Result<Vec<HostNumber>, Failure> {
    let count = 2 + numbers.next() % 7;
    let first = numbers.next() % 16;
    let mut hosts = Vec::new(alloc);
    for at in 0..count {
        let place = if shared { numbers.next() % 3 } else { at };
        hosts
            .push(host_of(first + place)?)
            .map_err(AllocError::from)?;
    }
    Ok(hosts)
}

fn host_of(drawn: u64) -> Result<HostNumber, Failure> {
    let Some(host) = HostNumber::new((drawn % 16) as u8) else {
        return Err(Failure::Wrong);
    };
    Ok(host)
}

/// A lock on a name that nobody else uses.
fn take_other(
    sessions: &mut Sessions,
    name: Option<LockName>,
    drawn: u64,
) -> Result<Other, Failure> {
    let Some(name) = name else {
        return Err(Failure::Wrong);
    };
    let asked = sessions.take(host_of(drawn)?, &wish_of(name, true, drawn >> 8))?;
    Ok(Other { name, asked })
}

/// Most locks are for their session alone. Some are not waited for, where the name is free.
fn wish_of(name: LockName, free: bool, drawn: u64) -> Wish {
    Wish {
        name,
        mode: if drawn % 8 == 0 {
            Mode::ProtectedRead
        } else {
            Mode::Exclusive
        },
        no_queue: free && (drawn >> 3) % 4 == 0,
    }
}
