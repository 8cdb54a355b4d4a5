ghost use Rattle.std.specs.Prelude.{◌≡◌, ◌↔◌, IsTrue};
ghost use Rattle.world.specs.Headline.{IsPrefix};
ghost use Rattle.race.specs.Agreement.{Agree, AgreesWith, AllAgree};

use cluster::{ClusterName, HostSeat};
use lock_command::Command;
use world::commands_read_back;

/// Whether of any two of the seats' prefixes one begins the other.
pub(crate) fn all_agree<N: ClusterName>(seats: &[HostSeat<N>]) -> bool
    ensures { IsTrue result ↔ AllAgree N.shape seats.now }
{
    for seat in seats {
        if !agrees_with(seat.prefix(), seats) {
            return false;
        }
    }
    true
}

// Whether of this prefix and each of the seats' one begins the other.
fn agrees_with<N: ClusterName>(one: &[Command], seats: &[HostSeat<N>]) -> bool
    ensures { IsTrue result ↔ AgreesWith N.shape one.now seats.now }
{
    for seat in seats {
        if !agree(one, seat.prefix()) {
            return false;
        }
    }
    true
}

// Whether one of the two begins the other.
fn agree(one: &[Command], other: &[Command]) -> bool
    ensures { IsTrue result ↔ Agree one.now other.now }
{
    is_prefix(one, other) || is_prefix(other, one)
}

// Whether the one list begins with the other.
fn is_prefix(short: &[Command], long: &[Command]) -> bool
    ensures { IsTrue result ↔ IsPrefix short.now long.now }
{
    if short.len() > long.len() {
        return false;
    }
    for i in 0..short.len() {
        if !is_same(&short[i], &long[i]) {
            return false;
        }
    }
    true
}

// Whether two commands are one, by their spellings.
fn is_same(one: &Command, other: &Command) -> bool
    ensures { IsTrue result ↔ one.now ≡ other.now }
{
    commands_read_back();
    one.encode() == other.encode()
}
