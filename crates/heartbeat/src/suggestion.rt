ghost use Rattle.std.specs.Prelude.{◌≡◌, ◌<◌, length};
ghost use Rattle.torn_block.specs.declared.layout.TheConstants.{HOSTS};
ghost use Rattle.heartbeat.specs.Suggesting as suggesting;
ghost use Rattle.heartbeat.specs.Suggesting.{suggestion};

use torn_block::HOSTS;

/// What was read of a disk's heartbeat area: the counters of the hosts. None where it was not read soundly.
pub type Reading = Option<[u64; HOSTS]>;

/// The least host whose counter differs on a majority of the disks, else `me`. A disk that is missing on either side
/// does not differ.
pub fn suggest(before: &[Reading], after: &[Reading], me: u8) -> u8
    requires { length before.now ≡ length after.now }
    ensures { result ≡ suggestion before.now after.now me }
{
    for host in 0..HOSTS {
        if moves_on_most(before, after, host) {
            return host as u8;
        }
    }
    me
}

// Whether the host's counter differs on a majority of the disks.
fn moves_on_most(before: &[Reading], after: &[Reading], host: usize) -> bool
    requires disks { length before.now ≡ length after.now }
    requires host { host < HOSTS }
    ensures { result ≡ suggesting.moves_on_most before.now after.now host }
{
    let mut moves = 0;
    for disk in 0..before.len() {
        if has_moved(&before[disk], &after[disk], host) {
            moves += 1;
        }
    }
    before.len() - moves < moves
}

// Whether the host's counter on a disk differs.
fn has_moved(before: &Reading, after: &Reading, host: usize) -> bool
    requires { host < HOSTS }
    ensures { result ≡ suggesting.has_moved host before.now after.now }
{
    match (before, after) {
        (Some(before), Some(after)) => before[host] != after[host],
        _ => false,
    }
}
