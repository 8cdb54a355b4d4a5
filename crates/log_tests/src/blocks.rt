// Definitions that no script holds in place: which of two open copies of a block counts, and whom the counters of two beats suggest.
use heartbeat::{Reading, suggest};
use torn_block::{COPY_ROOM, HOSTS, Half, Layout2, OPEN_GATE, read_block};

const BLOCK_LENGTH: usize = 2 * COPY_ROOM;

// An open copy with this byte throughout its body.
fn copy_of(byte: u8, sequence: u64) -> [u8; COPY_ROOM] {
    let mut copy = [byte; COPY_ROOM];
    copy[0] = OPEN_GATE;
    copy[8..16].copy_from_slice(&sequence.to_be_bytes());
    copy
}

fn block_of(first: &[u8; COPY_ROOM], second: &[u8; COPY_ROOM]) -> [u8; BLOCK_LENGTH] {
    let mut block = [0; BLOCK_LENGTH];
    block[..COPY_ROOM].copy_from_slice(first);
    block[COPY_ROOM..].copy_from_slice(second);
    block
}

#[test]
fn which_copy_counts(rt: HostRuntime) {
    // The sequence numbers of two open copies, and the one that counts. Of a tie it is the first.
    let rows = [(1, 2, Half::Second), (7, 7, Half::First)];
    for (first, second, counts) in rows {
        let block = read_block::<Layout2>(&block_of(&copy_of(1, first), &copy_of(2, second)));
        assert_eq!(rt; block.current, Some(counts), "{first}, {second}");
    }
}

fn counters(first: u64, second: u64) -> Reading {
    let mut counters = [0; HOSTS];
    counters[0] = first;
    counters[1] = second;
    Some(counters)
}

// Three disks, host 0 asks.
#[test]
fn suggestions(rt: HostRuntime) {
    let same = [counters(1, 4), counters(1, 4), counters(1, 4)];
    let most = [counters(1, 5), counters(1, 5), counters(1, 4)];
    assert_eq!(rt; suggest(&same, &most, 0), 1);
    let one = [counters(1, 5), counters(1, 4), counters(1, 4)];
    assert_eq!(rt; suggest(&same, &one, 0), 0);
    // a counter that fell has moved, too
    assert_eq!(rt; suggest(&most, &same, 0), 1);
    // host 0 differs on disk 0 alone, host 1 on disks 0 and 2
    let before = [counters(1, 4), None, counters(1, 4)];
    let after = [counters(2, 5), counters(2, 5), counters(1, 5)];
    assert_eq!(rt; suggest(&before, &after, 0), 1);
    assert_eq!(rt; suggest(&[], &[], 6), 6);
}
