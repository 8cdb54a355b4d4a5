ghost use Rattle.std.specs.Prelude.{◌≡◌};
ghost use Rattle.session.specs.Numbers.{client_of, lock_of};

use lock_command::{ClientNumber, HostNumber, LockNumber};

/// The client of the sessions of host 0. Those of host H are the client so many above it.
pub const FIRST_CLIENT: u8 = 240;

/// The first lock number of the sessions of host 0.
pub const FIRST_LOCK: u16 = 1536;

/// How many lock numbers the sessions of a host have.
pub const LOCKS_OF_A_HOST: u16 = 4000;

/// How many of them the sessions of one kind have: those that share the host number, or those that have it to themselves.
pub const NUMBERS: u16 = 2000;

/// The client of a host's sessions.
pub fn client_of(host: HostNumber) -> ClientNumber
    ensures { result ≡ client_of host }
{
    ClientNumber::new(FIRST_CLIENT + host.get())
}

/// The lock number that goes with a request: odd where the host number is shared, else even. It is none in use where the last requests of a
/// session were fewer than there are numbers.
pub fn lock_of(host: HostNumber, shares: bool, request: u64) -> LockNumber
    ensures { result ≡ lock_of host shares request }
{
    let first = FIRST_LOCK + LOCKS_OF_A_HOST * u16::from(host.get());
    let among = 2 * (request % u64::from(NUMBERS)) as u16 + u16::from(shares);
    LockNumber::new(first + among).unwrap()
}
