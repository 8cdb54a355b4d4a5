ghost use Rattle.std.specs.Prelude.{◌≡◌, ◌↔◌, ◌<◌, ◌≤◌, ◌^◌, IsTrue, IfSome, IfNone};
ghost use Rattle.torn_block.specs.Layout.{hosts_in};
ghost use Rattle.paxos_block.specs.Ballot;
ghost use Rattle.paxos_block.specs.Ballot.{IsBallotOf, IsLeastAbove, HasNoneAbove};
ghost use Rattle.paxos_block.specs.Votes;

use torn_block::Layout;

/// The greatest ballot. The least is 1, and 0 stands for none.
pub const LAST_BALLOT: u64 = 1 << 62;

/// Whether this is a ballot of this host's. The hosts own the ballots in turn, host 0 the first.
pub fn is_ballot_of<L: Layout>(host: u8, ballot: u64) -> bool
    ensures owned { IsTrue result ↔ IsBallotOf L.version host ballot }
    ensures test { result ≡ Ballot.is_ballot_of L.version host ballot }
{
    1 <= ballot && ballot <= LAST_BALLOT && (ballot - 1) % L::HOSTS as u64 == host as u64
}

/// The least ballot of a host above a number. None where that would be greater than `LAST_BALLOT`.
pub fn ballot_above<L: Layout>(host: u8, number: u64) -> Option<u64>
    requires { host < hosts_in L.version }
    ensures found { IfSome result (λ ballot. ballot ≡ Votes.ballot_above L.version host number) }
    ensures owned { IfSome result (IsBallotOf L.version host) }
    ensures least { IfSome result (IsLeastAbove L.version host number) }
    ensures spent { IfNone result (2 ^ 62 < Votes.ballot_above L.version host number) }
    ensures none { IfNone result (HasNoneAbove L.version host number) }
{
    if number >= LAST_BALLOT {
        return None;
    }
    let ballot = next_ballot::<L>(host, number);
    if ballot <= LAST_BALLOT {
        Some(ballot)
    } else {
        None
    }
}

fn next_ballot<L: Layout>(host: u8, number: u64) -> u64
    requires host { host < hosts_in L.version }
    requires number { number < 2 ^ 62 }
    ensures { result ≡ Votes.ballot_above L.version host number }
{
    let first = u64::from(host) + 1;
    if number < first {
        first
    } else {
        first + L::HOSTS as u64 * ((number - first) / L::HOSTS as u64 + 1)
    }
}

/// How many of so many disks are a majority.
pub fn majority(disks: u8) -> u8
    ensures { result ≡ Ballot.majority disks }
{
    disks / 2 + 1
}
