ghost use Rattle.std.specs.Prelude.{◌≡◌, ◌+◌, ◌*◌, ◌/◌, ◌<◌, ◌^◌, IsTrue, slice_index};
ghost use Rattle.lock_command.specs.declared.name.TheConstants.LockName.{LONGEST};
ghost use Rattle.lock_command.specs.Name.{IsName};
ghost use Rattle.lock_index.specs.Keys.{spelled, key_of, lock_key, HasKey};

use crate::state::{number_among, rank};
use lock_command::{LockName, LockRecord};
use std::marker::Model;

/// A name, and its bytes as one number, which sort keys begin with. A command computes it once.
#[derive(Drop)]
pub struct SpelledName {
    name: LockName,
    number: u128,
    /// Where a search by lock number ended, if there was one. No contract speaks of it: the place is tested.
    near_by_number: usize,
}

impl Model for SpelledName {
    ghost use Rattle.std.specs.Prelude.{List, ℕ, ◌≡◌, ◌<◌, ◌^◌};
    ghost use Rattle.lock_command.specs.declared.name.TheConstants.LockName.{LONGEST};
    ghost use Rattle.lock_command.specs.Name.{IsName};
    ghost use Rattle.lock_index.specs.Keys.{spelled};

    ghost Value = { List ℕ };

    ghost view = { λ s. s.name };

    ghost invariant = { λ s. (s.number ≡ spelled LONGEST s.name) × (s.number < 2 ^ 107) × IsName s.name };
}

impl SpelledName {
    pub fn new(name: LockName) -> Self
        ensures { result ≡ name }
    {
        SpelledName::beside(name, usize::MAX)
    }

    /// The name of a lock. A search for its number ended at this place, or there was none.
    pub fn beside(name: LockName, near_by_number: usize) -> Self
        ensures { result ≡ name }
    {
        SpelledName {
            name,
            number: spelled(name.as_bytes()),
            near_by_number,
        }
    }

    /// The name of a lock with this sort key, which begins with the name's number.
    pub fn of_key(name: LockName, key: u128) -> Self
        requires named { IsName name }
        requires key { key / 2 ^ 18 ≡ spelled LONGEST name }
        ensures { result ≡ name }
    {
        SpelledName {
            name,
            number: key / 262_144,
            near_by_number: usize::MAX,
        }
    }

    /// Whether it is the same name: no two names have one number.
    pub fn is_same(&self, other: &SpelledName) -> bool
        ensures same { IsTrue result → self.now ≡ other.now }
        ensures found { self.now ≡ other.now → IsTrue result }
    {
        self.number == other.number
    }

    pub fn name(&self) -> LockName
        ensures { result ≡ self.now }
    {
        self.name
    }

    /// A place near to the lock that a command is about, among the records by number, or behind all of them.
    pub fn near_by_number(&self) -> usize {
        self.near_by_number
    }

    /// A sort key: it orders by the bytes of the name first, then by the rank, then by the number.
    pub fn key(&self, rank: u8, number: u16) -> u128
        ensures key { result ≡ key_of self.now rank number }
        ensures name { IsName self.now }
        ensures small { result < 2 ^ 126 }
    {
        (self.number * 4 + u128::from(rank)) * 65536 + u128::from(number)
    }
}

/// The sort key of a lock.
pub fn lock_key(record: &LockRecord, name: &SpelledName) -> u128
    requires named { name.now ≡ record.now.name }
    ensures key { result ≡ lock_key record.now }
    ensures fits { HasKey record.now }
    ensures small { result < 2 ^ 126 }
{
    let lock = record.lock.get();
    name.key(rank(&record.state), number_among(&record.state, lock))
}

/// The bytes as the digits of one number to base 128: as many as the longest name has, with zeros behind them.
fn spelled(bytes: &[u8]) -> u128
    ensures spelled { result ≡ spelled LONGEST bytes.now }
    ensures small { result < 2 ^ 107 }
{
    let mut key: u128 = 0;
    for at in 0..LockName::LONGEST {
        key = key * 128 + u128::from(byte_at(bytes, at));
    }
    key
}

/// The byte at this index, or 0 past the last.
fn byte_at(bytes: &[u8], at: usize) -> u8
    ensures { result ≡ slice_index bytes.now at }
{
    if at < bytes.len() { bytes[at] } else { 0 }
}
