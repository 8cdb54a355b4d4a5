ghost use Rattle.std.specs.Prelude.{◌≡◌, ◌+◌, ◌-◌, ◌<◌, ◌^◌, ◌↔◌, IsTrue};
ghost use Rattle.lock_command.specs.Mode.{conflict};

use crate::mode::{Mode, compatible};

/// How many locks of one name hold each mode, up to 2^32 - 1 of each.
#[derive(Clone, Copy, Debug, PartialEq, Eq)]
pub struct Held {
    null: u32,
    concurrent_read: u32,
    concurrent_write: u32,
    protected_read: u32,
    protected_write: u32,
    exclusive: u32,
}

/// The counter of a mode.
macro_rules! counter {
    ($held:expr, $mode:expr) => {
        match $mode {
            Mode::Null => $held.null,
            Mode::ConcurrentRead => $held.concurrent_read,
            Mode::ConcurrentWrite => $held.concurrent_write,
            Mode::ProtectedRead => $held.protected_read,
            Mode::ProtectedWrite => $held.protected_write,
            Mode::Exclusive => $held.exclusive,
        }
    };
}

impl Held {
    ghost use Rattle.lock_command.specs.Held.{count_of, AddsMode, IsNothing, Lets, Admits};

    /// Nothing is held.
    pub fn new() -> Self
        ensures nothing { IsNothing result }
    {
        Held {
            null: 0,
            concurrent_read: 0,
            concurrent_write: 0,
            protected_read: 0,
            protected_write: 0,
            exclusive: 0,
        }
    }

    /// How many locks hold the mode.
    pub fn count(&self, mode: Mode) -> u32
        ensures count { result ≡ count_of self.now mode }
    {
        counter!(self, mode)
    }

    /// One more lock holds the mode.
    pub fn add(&mut self, mode: Mode)
        requires countable { count_of self.old mode < 2 ^ 32 - 1 }
        ensures added { AddsMode self.old self.new mode }
    {
        match mode {
            Mode::Null => self.null += 1,
            Mode::ConcurrentRead => self.concurrent_read += 1,
            Mode::ConcurrentWrite => self.concurrent_write += 1,
            Mode::ProtectedRead => self.protected_read += 1,
            Mode::ProtectedWrite => self.protected_write += 1,
            Mode::Exclusive => self.exclusive += 1,
        }
    }

    /// One lock fewer holds the mode.
    pub fn remove(&mut self, mode: Mode)
        requires held { 0 < count_of self.old mode }
        ensures removed { AddsMode self.new self.old mode }
    {
        match mode {
            Mode::Null => self.null -= 1,
            Mode::ConcurrentRead => self.concurrent_read -= 1,
            Mode::ConcurrentWrite => self.concurrent_write -= 1,
            Mode::ProtectedRead => self.protected_read -= 1,
            Mode::ProtectedWrite => self.protected_write -= 1,
            Mode::Exclusive => self.exclusive -= 1,
        }
    }

    /// Whether a lock may hold the mode beside all that are counted.
    pub fn admits(&self, mode: Mode) -> bool
        ensures admitted { IsTrue result ↔ Admits self.now mode }
    {
        self.lets(Mode::Null, mode)
            && self.lets(Mode::ConcurrentRead, mode)
            && self.lets(Mode::ConcurrentWrite, mode)
            && self.lets(Mode::ProtectedRead, mode)
            && self.lets(Mode::ProtectedWrite, mode)
            && self.lets(Mode::Exclusive, mode)
    }

    /// Whether a lock that holds a mode may hold another in its place, beside all others that are counted.
    pub fn admits_without(&self, own: Mode, wanted: Mode) -> bool
        requires own_counted { 0 < count_of self.now own }
        ensures admitted { (others : Held) → AddsMode others self.now own → IsTrue result ↔ Admits others wanted }
    {
        let mut others = *self;
        others.remove(own);
        others.admits(wanted)
    }

    /// Whether the locks that hold one mode let another be held beside them.
    fn lets(&self, held: Mode, wanted: Mode) -> bool
        ensures { IsTrue result ↔ Lets self.now wanted held }
    {
        self.count(held) == 0 || compatible(held, wanted)
    }
}
