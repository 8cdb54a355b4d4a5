ghost use Rattle.std.specs.Prelude.{◌≡◌, ◌≤◌, ◌<◌, ◌*◌, ◌↔◌, ℕ, false, slice_index, slice_index_or, IsTrue, IsNone, IfSome, SomeIff};
ghost use Rattle.disk.specs.Disk.{put_at};
ghost use Rattle.torn_block.specs.declared.layout.TheConstants.{BLOCK_LENGTH, HOSTS, LAST_SEQUENCE};
ghost use Rattle.heartbeat.specs.Beat.{IsDamagedArea, counters_in};
ghost use Rattle.standings.specs.Reading.{AreClear, HasPassed, masked, numbers_in, shown_in, zero_block};

use crate::epoch::Epoch;
use heartbeat::decode_area;
use torn_block::{BLOCK_LENGTH, HOSTS, ROW_LENGTH};

/// The numbers of the hosts that a row of standings says. None where a block of it is damaged.
pub fn decode_standings(row: &[u8; ROW_LENGTH]) -> Option<[u64; HOSTS]>
    ensures damaged { IsNone result ↔ IsDamagedArea row.now }
    ensures exact { IfSome result (λ numbers. numbers ≡ counters_in row.now) }
    ensures each { IfSome result (λ numbers. (host : ℕ) → host < HOSTS → slice_index numbers host ≡ numbers_in row.now host) }
    ensures range { IfSome result (λ numbers. (host : ℕ) → host < HOSTS → slice_index numbers host ≤ LAST_SEQUENCE) }
{
    decode_area(row).ok()
}

/// Whom two readings of the standings show, the first made before a row was read, the second one after: by host, whether it has the epoch's number
/// in both. None where they are not clear: somebody has left by the second one, or has come in between.
pub fn shown(epoch: &Epoch, first: &[u64; HOSTS], second: &[u64; HOSTS]) -> Option<[bool; HOSTS]>
    ensures { SomeIff result (AreClear epoch.now (slice_index first.now) (slice_index second.now)) (shown_in epoch.now first.now second.now) }
{
    if has_passed(epoch, second) {
        return None;
    }
    let mut shown = [false; HOSTS];
    for host in 0..HOSTS {
        shown[host] = second[host] == epoch.number;
        if shown[host] && first[host] != epoch.number {
            return None;
        }
    }
    Some(shown)
}

/// Whether somebody has left the epoch by this reading.
pub fn has_passed(epoch: &Epoch, numbers: &[u64; HOSTS]) -> bool
    ensures { IsTrue result ↔ HasPassed epoch.now (slice_index numbers.now) }
{
    numbers.iter().any(|&number| epoch.number < number)
}

/// Puts zeros in the place of the blocks of hosts that are not shown.
pub fn mask(row: &mut [u8; ROW_LENGTH], shown: &[bool; HOSTS])
    ensures { row.new ≡ masked (λ host. slice_index_or shown.now host false) row.old }
{
    for host in 0..HOSTS {
        if !shown[host] {
            clear_block(row, host);
        }
    }
}

// Puts zeros in the place of a host's block.
fn clear_block(row: &mut [u8; ROW_LENGTH], host: usize)
    requires { host < HOSTS }
    ensures { row.new ≡ put_at row.old (BLOCK_LENGTH * host) zero_block }
{
    let place = BLOCK_LENGTH * host;
    row[place..place + BLOCK_LENGTH].fill(0);
}
