ghost use Rattle.std.specs.Prelude.{◌≡◌, ℕ, ◌<◌, ◌≤◌, ◌^◌};
ghost use Rattle.std.specs.Option.{SomeIff};

use std::marker::Model;

/// The most hosts that a cluster has. They are numbered from 0.
pub const HOSTS: usize = 16;

/// A host of the cluster, by its number below `HOSTS`.
#[derive(Clone, Copy, Debug, PartialEq, Eq)]
pub struct HostNumber(u8);

impl Model for HostNumber {
    ghost use Rattle.std.specs.Prelude.{ℕ, ◌<◌};
    ghost use Rattle.lock_command.specs.declared.number.TheConstants.{HOSTS};

    ghost Value = { ℕ };

    ghost view = { λ host. host.0 };

    ghost invariant = { λ host. host.0 < HOSTS };

    ghost inverse = { λ n. record { 0 = n } };
}

impl HostNumber {
    /// The host with this number, if there is one.
    pub fn new(number: u8) -> Option<Self>
        ensures host { SomeIff result (number < HOSTS) number }
    {
        if usize::from(number) < HOSTS {
            Some(HostNumber(number))
        } else {
            None
        }
    }

    pub fn get(self) -> u8
        ensures value { result ≡ self }
        ensures range { result < HOSTS }
    {
        self.0
    }
}

/// A client of the lock table. All numbers from 0 to 255 are clients.
#[derive(Clone, Copy, Debug, PartialEq, Eq)]
pub struct ClientNumber(u8);

impl Model for ClientNumber {
    ghost Value = { ℕ };

    ghost view = { λ client. client.0 };

    ghost invariant = { λ client. client.0 < 2 ^ 8 };

    ghost inverse = { λ n. record { 0 = n } };
}

impl ClientNumber {
    /// The client with this number.
    pub fn new(number: u8) -> Self
        ensures client { result ≡ number }
    {
        ClientNumber(number)
    }

    pub fn get(self) -> u8
        ensures value { result ≡ self }
        ensures range { result < 2 ^ 8 }
    {
        self.0
    }
}

/// The number that a client chose for a lock, from 1 to 65,535.
#[derive(Clone, Copy, Debug, PartialEq, Eq)]
pub struct LockNumber(u16);

impl Model for LockNumber {
    ghost Value = { ℕ };

    ghost view = { λ lock. lock.0 };

    ghost invariant = { λ lock. (1 ≤ lock.0) × (lock.0 < 2 ^ 16) };

    ghost inverse = { λ n. record { 0 = n } };
}

impl LockNumber {
    /// The lock number, unless it is 0.
    pub fn new(number: u16) -> Option<Self>
        ensures lock { SomeIff result (1 ≤ number) number }
    {
        if number >= 1 {
            Some(LockNumber(number))
        } else {
            None
        }
    }

    pub fn get(self) -> u16
        ensures value { result ≡ self }
        ensures range { (1 ≤ result) × (result < 2 ^ 16) }
    {
        self.0
    }
}

/// The number of a client's request, from 1 to 2^62. A client's later requests have higher numbers.
#[derive(Clone, Copy, Debug, PartialEq, Eq)]
pub struct RequestNumber(u64);

impl Model for RequestNumber {
    ghost Value = { ℕ };

    ghost view = { λ request. request.0 };

    ghost invariant = { λ request. (1 ≤ request.0) × (request.0 ≤ 2 ^ 62) };

    ghost inverse = { λ n. record { 0 = n } };
}

impl RequestNumber {
    /// The last request number.
    pub const LAST: u64 = 1 << 62;

    /// The request number, if it is from 1 to 2^62.
    pub fn new(number: u64) -> Option<Self>
        ensures request { SomeIff result ((1 ≤ number) × (number ≤ 2 ^ 62)) number }
    {
        if number >= 1 && number <= Self::LAST {
            Some(RequestNumber(number))
        } else {
            None
        }
    }

    pub fn get(self) -> u64
        ensures value { result ≡ self }
        ensures range { (1 ≤ result) × (result ≤ 2 ^ 62) }
    {
        self.0
    }
}
