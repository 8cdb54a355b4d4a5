ghost use Rattle.std.specs.Prelude.{◌≡◌, ◌≢◌, ◌↔◌, ◌+◌, ◌++◌, ◌==◌, if◌then◌else◌, Bool, List, ℕ, true, false, is_some, IsTrue, length, drop, Some, IfSome, MatchOption, None, option_map};
ghost use Rattle.std.specs.List.{list_all};
ghost use Rattle.torn_block.specs.Layout.{value_length, body_length, padding};
ghost use Rattle.torn_block.specs.Plan.{body_in};
ghost use Rattle.paxos_block.specs.Ballot;
ghost use Rattle.paxos_block.specs.Saying;
ghost use Rattle.paxos_block.specs.Saying.{Said as Claim, MaySay, body_saying, claim_of, said_by, said_as, flag_of, may_mark, value_bytes, zeros};
ghost use Rattle.paxos_block.specs.Votes.{later_of, marked};

use crate::ballot::is_ballot_of;
use crate::number::{NUMBER_LENGTH, SHORT_LENGTH, number_in, short_in};
use torn_block::{BODY_ROOM, Body, HEADING_LENGTH, Layout, VALUE_LENGTH, put_number};

// The two ballots of a body.
const BALLOTS_LENGTH: usize = 2 * NUMBER_LENGTH;

// Where a body says whether there is an input, and whether it is marked.
const FLAG_AT: usize = 1;

const MARK_AT: usize = 2;

// The first four bytes of a body, as a number: that of its layout, and what is added where there is an input, and where
// that is marked.
const VERSION_PLACE: u32 = 0x0100_0000;

const VOTED: u32 = 0x0001_0000;

const MARKED: u32 = 0x0001_0100;

/// An input of the cluster's layout.
pub type Value = [u8; VALUE_LENGTH];

/// What a host's block says of a slot, by the names of Gafni and Lamport, "Disk Paxos" (2003).
#[derive(Clone, Copy, Debug, PartialEq, Eq)]
pub struct PBlock<V> {
    /// The host's latest ballot; 0 in a blank block.
    pub mbal: u64,
    /// Its latest ballot that came to a vote; 0 where none did.
    pub bal: u64,
    /// What it voted for then.
    pub inp: Option<V>,
    /// The input is known to be chosen.
    pub mark: bool,
}

impl<V: Copy> PBlock<V> {
    /// What a blank block says. No sound copy says it.
    // This is a function because the checker knows nothing of a constant of a generic type.
    #[inline(always)]
    pub fn blank() -> PBlock<V>
        ensures { result ≡ record { mbal = 0; bal = 0; inp = None; mark = false } }
    {
        PBlock {
            mbal: 0,
            bal: 0,
            inp: None,
            mark: false,
        }
    }

    /// The input, where it is marked.
    pub fn marked(&self) -> Option<V>
        ensures { (spelled : V → List ℕ) → option_map spelled result ≡ marked (said_as spelled self.now) }
    {
        if self.mark { self.inp } else { None }
    }

    /// The later vote: that with the greater bal, `self` where they have one bal.
    pub fn or_later(self, other: &PBlock<V>) -> PBlock<V>
        ensures { (spelled : V → List ℕ) → said_as spelled result ≡ later_of (said_as spelled self) (said_as spelled other.now) }
    {
        if self.bal < other.bal { *other } else { self }
    }
}

/// The body of a copy that says this. `may_say` is the test of what a host may say.
pub fn encode<L: Layout>(host: u8, block: &PBlock<L::Value>) -> Body
    requires { MaySay L.version host (said_as L.spelled block.now) }
    ensures { body_in L.version result ≡ body_saying L.version (said_as L.spelled block.now) }
{
    let mut bytes = [0; BODY_ROOM];
    put_block::<L>(&mut bytes[..L::COPY_LENGTH - 9], block);
    Body { bytes }
}

fn put_block<L: Layout>(bytes: &mut [u8], block: &PBlock<L::Value>)
    requires { length bytes.old ≡ body_length L.version }
    ensures { bytes.new ≡ body_saying L.version (said_as L.spelled block.now) }
{
    let (front, back) = bytes.split_at_mut(HEADING_LENGTH);
    let (mbal, rest) = back.split_at_mut(NUMBER_LENGTH);
    let (bal, end) = rest.split_at_mut(NUMBER_LENGTH);
    front.copy_from_slice(&heading::<L>(block.inp.is_some(), block.mark));
    put_number(mbal, block.mbal);
    put_number(bal, block.bal);
    put_value::<L>(end, &block.inp);
}

// The bytes in front of the ballots.
fn heading<L: Layout>(voted: bool, marked: bool) -> [u8; HEADING_LENGTH]
    ensures { result ≡ Saying.heading L.version voted marked }
{
    [L::VERSION, flag(voted), flag(marked), 0, 0, 0, 0]
}

fn flag(is: bool) -> u8
    ensures { result ≡ flag_of is }
{
    if is { 1 } else { 0 }
}

fn put_value<L: Layout>(bytes: &mut [u8], inp: &Option<L::Value>)
    requires { length bytes.old ≡ value_length L.version + padding L.version }
    ensures { bytes.new ≡ value_bytes L.version (option_map L.spelled inp.now) ++ zeros (padding L.version) }
{
    bytes.fill(0);
    if let Some(value) = inp {
        L::put_value(value, &mut bytes[..L::VALUE_LENGTH]);
    }
}

/// What a body says in a host's block. None where it is no spelling of what the host may say.
pub fn decode<L: Layout>(host: u8, body: &Body) -> Option<PBlock<L::Value>>
    // What is found is spelled so, and the host may say it.
    ensures found { IfSome (option_map (said_as L.spelled) result) (λ says. MaySay L.version host says × (body_in L.version body.now ≡ body_saying L.version says)) }
    // What is spelled so, and the host may say, is found.
    ensures only { (says : Claim) → MaySay L.version host says → body_in L.version body.now ≡ body_saying L.version says →
        option_map (said_as L.spelled) result ≡ Some says }
    // The result once more, as one function of the bytes.
    ensures exact { option_map (said_as L.spelled) result ≡ said_by L.version host (body_in L.version body.now) }
{
    let (front, back) = body.bytes[..L::COPY_LENGTH - 9].split_at(HEADING_LENGTH);
    said::<L>(host, front, back)
}

// What a body says, given in two parts.
fn said<L: Layout>(host: u8, front: &[u8], back: &[u8]) -> Option<PBlock<L::Value>>
    requires front { length front.now ≡ HEADING_LENGTH }
    requires back { length back.now + HEADING_LENGTH ≡ body_length L.version }
    ensures { option_map (said_as L.spelled) result ≡ said_by L.version host (front.now ++ back.now) }
{
    if is_said::<L>(host, front, back) {
        Some(claim::<L>(front, back))
    } else {
        None
    }
}

// Whether a body in two parts says anything.
pub(crate) fn is_said<L: Layout>(host: u8, front: &[u8], back: &[u8]) -> bool
    requires front { length front.now ≡ HEADING_LENGTH }
    requires back { length back.now + HEADING_LENGTH ≡ body_length L.version }
    ensures { result ≡ Saying.is_said L.version host (front.now ++ back.now) }
{
    match flag_in::<L>(front) {
        None => false,
        Some(voted) => {
            has_zeros::<L>(voted, &back[BALLOTS_LENGTH..])
                && may_promise::<L>(
                    host,
                    number_in(back),
                    number_in(&back[NUMBER_LENGTH..]),
                    voted,
                )
        }
    }
}

// Whether the rest is zeros: all bytes after the input, or all after the ballots if there is no input.
fn has_zeros<L: Layout>(voted: bool, end: &[u8]) -> bool
    requires { length end.now ≡ value_length L.version + padding L.version }
    ensures { result ≡ list_all (λ b. b == 0) (if voted then drop (value_length L.version) end.now else end.now) }
{
    let (value, rest) = end.split_at(L::VALUE_LENGTH);
    L::is_padding(rest) && (voted || L::is_blank(value))
}

// What it then says.
pub(crate) fn claim<L: Layout>(front: &[u8], back: &[u8]) -> PBlock<L::Value>
    requires front { length front.now ≡ HEADING_LENGTH }
    requires back { length back.now + HEADING_LENGTH ≡ body_length L.version }
    ensures { said_as L.spelled result ≡ claim_of L.version (front.now ++ back.now) }
{
    let mbal = number_in(back);
    let bal = number_in(&back[NUMBER_LENGTH..]);
    let mark = front[MARK_AT] == 1;
    if front[FLAG_AT] == 1 {
        let value = L::value_in(&back[BALLOTS_LENGTH..BALLOTS_LENGTH + L::VALUE_LENGTH]);
        PBlock {
            mbal,
            bal,
            inp: Some(value),
            mark,
        }
    } else {
        PBlock {
            mbal,
            bal,
            inp: None,
            mark,
        }
    }
}

// Whether there is an input, by a body's heading. None where that is no heading. Its seven bytes are looked at as two
// numbers, which overlap.
fn flag_in<L: Layout>(front: &[u8]) -> Option<bool>
    requires { length front.now ≡ HEADING_LENGTH }
    ensures { MatchOption result
        ((voted marked : Bool) → may_mark marked voted ≡ true → front.now ≢ Saying.heading L.version voted marked)
        (λ voted. (marked : Bool) × (may_mark marked voted ≡ true) × (front.now ≡ Saying.heading L.version voted marked)) }
{
    if short_in(&front[HEADING_LENGTH - SHORT_LENGTH..]) != 0 {
        return None;
    }
    let start = short_in(front);
    let blank = L::VERSION as u32 * VERSION_PLACE;
    let voted = blank + VOTED;
    let marked = blank + MARKED;
    if start == voted {
        return Some(true);
    }
    if start == marked {
        return Some(true);
    }
    if start == blank { Some(false) } else { None }
}

/// Whether a host may write this in a block of its own.
pub fn may_say<L: Layout>(host: u8, block: &PBlock<L::Value>) -> bool
    ensures { IsTrue result ↔ MaySay L.version host (said_as L.spelled block.now) }
{
    let voted = block.inp.is_some();
    may_promise::<L>(host, block.mbal, block.bal, voted) && may_mark(block.mark, voted)
}

fn may_mark(mark: bool, voted: bool) -> bool
    ensures { result ≡ Saying.may_mark mark voted }
{
    if mark { voted } else { true }
}

fn may_promise<L: Layout>(host: u8, mbal: u64, bal: u64, voted: bool) -> bool
    ensures { result ≡ Ballot.may_promise L.version host mbal bal voted }
{
    is_ballot_of::<L>(host, mbal)
        && if voted {
            is_ballot_of::<L>(host, bal) && bal <= mbal
        } else {
            bal == 0
        }
}
