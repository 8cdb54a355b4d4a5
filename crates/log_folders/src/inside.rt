// Who is inside of the newest epoch of an area, and which epoch of a disk is the newest.
ghost use Rattle.std.specs.Prelude.{◌≡◌, ◌<◌, ◌≤◌, ◌↔◌, ℕ, List, Some, false, IsTrue, IfSome, slice_index, slice_index_or};
ghost use Rattle.torn_block.specs.declared.layout.TheConstants.{HOSTS};
ghost use Rattle.log_folders.specs.Areas.{AreInside, AreNumbers, IsNewestOf, SaysNumbers};

use standings::{Epoch, newest};
use torn_block::HOSTS;

/// By host, whether it is inside of the newest epoch of an area, by the numbers of the hosts there. Nobody is where these are not known, or where
/// the area has had no epoch.
pub(crate) fn inside_of(area: u8, numbers: &Option<[u64; HOSTS]>) -> [bool; HOSTS]
    requires { IfSome numbers.now AreNumbers }
    ensures { (row : List ℕ) → SaysNumbers row numbers.now → AreInside area row result }
{
    let Some(numbers) = numbers else {
        return [false; HOSTS];
    };
    match newest(area, numbers) {
        Some(order) => having(numbers, Epoch::new(order).number),
        None => [false; HOSTS],
    }
}

/// By host, whether it has this number.
fn having(numbers: &[u64; HOSTS], number: u64) -> [bool; HOSTS]
    ensures { (host : ℕ) → host < HOSTS → IsTrue (slice_index_or result host false) ↔ (slice_index numbers.now host ≡ number) }
{
    let mut having = [false; HOSTS];
    for host in 0..HOSTS {
        having[host] = numbers[host] == number;
    }
    having
}

/// The newest epoch to which a number of a disk belongs, by the numbers of the hosts in each area.
pub(crate) fn newest_of(first: &[u64; HOSTS], second: &[u64; HOSTS]) -> u64
    requires first { AreNumbers first.now }
    requires second { AreNumbers second.now }
    ensures { (one other : List ℕ) → SaysNumbers one (Some first.now) → SaysNumbers other (Some second.now) → IsNewestOf one other result }
{
    let first = newest(0, first).unwrap_or(0);
    let second = newest(1, second).unwrap_or(0);
    first.max(second)
}
