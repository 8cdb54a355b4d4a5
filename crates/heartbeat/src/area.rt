ghost use Rattle.std.specs.Prelude.{◌≡◌, ◌<◌, ◌↔◌, true, length, Contains, IfOk, OnOk, OnErr, IsErr, Some, None};
ghost use Rattle.torn_block.specs.Layout.{cluster_version};
ghost use Rattle.torn_block.specs.Damage;
ghost use Rattle.torn_block.specs.Plan.{body_in};
ghost use Rattle.torn_block.specs.Damage.{IsSoundBlock, IsDamagedBlock};
ghost use Rattle.heartbeat.specs.Beat;
ghost use Rattle.heartbeat.specs.Beat.{IsBeat, beat_body, counter_of, AreCounters, IsDamagedArea, all_zero, area_said, counters_in};
ghost use Rattle.heartbeat.specs.Damage.{AreDamagedBeats, damaged_in};

use thiserror::Error;
use torn_block::{
    BLOCK_LENGTH, BODY_LENGTH, BODY_ROOM, Body, COPY_LENGTH, ClusterLayout, HOSTS, ROW_LENGTH,
    VERSION, has_twins, is_open, is_sequence, read_block, sequence_in,
};

/// Some open copy of an area is no beat, or both copies of a block are open with one sequence number.
#[derive(Clone, Copy, Debug, PartialEq, Eq, Error)]
#[error("a block of the heartbeat area is damaged")]
pub struct Damaged;

/// The body of a beat, whoever's.
pub fn encode_beat() -> Body
    ensures { body_in cluster_version result ≡ beat_body }
{
    let mut bytes = [0; BODY_ROOM];
    put_beat(&mut bytes[..BODY_LENGTH]);
    Body { bytes }
}

fn put_beat(bytes: &mut [u8])
    requires { length bytes.old ≡ BODY_LENGTH }
    ensures { bytes.new ≡ beat_body }
{
    let (version, rest) = bytes.split_at_mut(1);
    version[0] = VERSION;
    rest.fill(0);
}

/// The counters of the hosts, by their numbers.
pub fn decode_area(bytes: &[u8; ROW_LENGTH]) -> Result<[u64; HOSTS], Damaged>
    ensures damaged { IsErr result ↔ IsDamagedArea bytes.now }
    ensures counters { IfOk result (AreCounters bytes.now) }
    // The result once more, as the one function of the bytes that the contracts of other crates use.
    ensures unsaid { IsErr result ↔ (area_said bytes.now ≡ None) }
    ensures said { IfOk result (λ counters. area_said bytes.now ≡ Some bytes.now) }
    ensures exact { IfOk result (λ counters. counters ≡ counters_in bytes.now) }
{
    let mut counters = [0; HOSTS];
    for host in 0..HOSTS {
        let place = BLOCK_LENGTH * host;
        counters[host] = counter_in(&bytes[place..place + BLOCK_LENGTH])?;
    }
    Ok(counters)
}

/// Which blocks of these bytes of an area are damaged, by the hosts' numbers. `decode_area` finds the area damaged exactly
/// where one of them is.
pub fn damaged_beats(bytes: &[u8; ROW_LENGTH]) -> [bool; HOSTS]
    ensures each { AreDamagedBeats bytes.now result }
    ensures area { Contains result true ↔ IsDamagedArea bytes.now }
    ensures exact { result ≡ damaged_in bytes.now }
{
    let mut damaged = [false; HOSTS];
    for host in 0..HOSTS {
        let place = BLOCK_LENGTH * host;
        damaged[host] = is_damaged_block(&bytes[place..place + BLOCK_LENGTH]);
    }
    damaged
}

// Whether these bytes of a host's block are damaged.
fn is_damaged_block(bytes: &[u8]) -> bool
    requires { length bytes.now ≡ BLOCK_LENGTH }
    ensures { result ≡ Damage.is_damaged_block cluster_version Beat.is_beat bytes.now }
{
    let (first, second) = bytes.split_at(COPY_LENGTH);
    is_damaged(first, second)
}

fn counter_in(bytes: &[u8]) -> Result<u64, Damaged>
    requires { length bytes.now ≡ BLOCK_LENGTH }
    ensures sound { OnOk result (IsSoundBlock cluster_version IsBeat bytes.now) }
    ensures counter { IfOk result (λ counter. counter ≡ counter_of bytes.now) }
    ensures damaged { OnErr result (IsDamagedBlock cluster_version IsBeat bytes.now) }
{
    let (first, second) = bytes.split_at(COPY_LENGTH);
    if is_damaged(first, second) {
        return Err(Damaged);
    }
    let block = read_block::<ClusterLayout>(bytes);
    Ok(match block.current {
        None => 0,
        Some(_) => block.sequence,
    })
}

fn is_damaged(first: &[u8], second: &[u8]) -> bool
    requires first { length first.now ≡ COPY_LENGTH }
    requires second { length second.now ≡ COPY_LENGTH }
    ensures { result ≡ Damage.is_damaged Beat.is_beat first.now second.now }
{
    has_fault(first) || has_fault(second) || has_twins(first, second)
}

fn has_fault(copy: &[u8]) -> bool
    requires { length copy.now ≡ COPY_LENGTH }
    ensures { result ≡ Damage.has_fault Beat.is_beat copy.now }
{
    is_open(copy) && !is_beat(copy)
}

fn is_beat(copy: &[u8]) -> bool
    requires { length copy.now ≡ COPY_LENGTH }
    ensures { result ≡ Beat.is_beat copy.now }
{
    is_sequence(sequence_in(copy))
        && copy[1] == VERSION
        && is_zero(&copy[2..8])
        && is_zero(&copy[16..])
}

fn is_zero(bytes: &[u8]) -> bool
    ensures { result ≡ all_zero bytes.now }
{
    bytes.iter().all(|&b| b == 0)
}
