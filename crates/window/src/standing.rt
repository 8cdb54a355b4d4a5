// Whether rows may be shown by a row of standings.
ghost use Rattle.std.specs.Prelude.{◌≡◌, ◌≢◌, true, false, slice_index, IfOk, IfErr, OnOk};
ghost use Rattle.window.specs.Knows.{AreSaid};
ghost use Rattle.window.specs.Outcomes.{IsGood, IsHiddenBy};

use crate::standpoint::Standpoint;
use standings::{decode_standings, has_passed};
use torn_block::{HOSTS, ROW_LENGTH};

/// Why no row is shown by it.
#[derive(Clone, Copy, Debug, PartialEq, Eq)]
pub enum Hidden {
    /// A block of it is damaged.
    Damaged,
    /// Somebody has left the epoch.
    Passed,
    /// The host itself is not inside, and does not only look.
    Outside,
}

/// The numbers that a row of standings says, where rows may be shown to this host by it.
pub fn judge(from: &Standpoint, standings: &[u8; ROW_LENGTH]) -> Result<[u64; HOSTS], Hidden>
    ensures numbers { IfOk result (AreSaid standings.now) }
    ensures good { OnOk result (IsGood from.now standings.now) }
    ensures hidden { IfErr result (IsHiddenBy from.now standings.now) }
{
    let Some(numbers) = decode_standings(standings) else {
        return Err(Hidden::Damaged);
    };
    if has_passed(&from.epoch, &numbers) {
        return Err(Hidden::Passed);
    }
    if !may_see(from, &numbers) {
        return Err(Hidden::Outside);
    }
    Ok(numbers)
}

// Whether the host only looks, or is inside by these numbers.
fn may_see(from: &Standpoint, numbers: &[u64; HOSTS]) -> bool
    ensures sees { result ≡ true → from.now.only_looks ≡ false → slice_index numbers.now from.now.host ≡ from.now.epoch.number }
    ensures outside { result ≡ false → (from.now.only_looks ≡ false) × (slice_index numbers.now from.now.host ≢ from.now.epoch.number) }
{
    from.only_looks || numbers[usize::from(from.host)] == from.epoch.number
}
