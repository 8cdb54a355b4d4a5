ghost use Rattle.std.specs.Prelude.{◌≡◌, ◌+◌, ◌*◌, ◌≤◌, ◌^◌, ◌∷◌, ◌↔◌, length, take, IfOk, IsOk, IsTrue, None};
ghost use Rattle.std.specs.Option.{option_map};
ghost use Rattle.torn_block.specs.Block.{number_bytes, tail_with, next_number};
ghost use Rattle.torn_block.specs.Layout.{copy_length, body_length};
ghost use Rattle.torn_block.specs.Plan.{told_number, body_in, plan_by, seen_need, LiesWithin, need_of, next_after};

use crate::block::{Block128, Body, Half, OPEN_GATE};
use crate::layout::{COPY_ROOM, HEADING_LENGTH, LAST_SEQUENCE, Layout};
use byteorder::{BigEndian, ByteOrder};
use std::marker::Model;
use thiserror::Error;

/// The block's sequence number is 2^62 or above, so there is no next one.
#[derive(Clone, Copy, Debug, PartialEq, Eq, Error)]
#[error("the block's sequence numbers are spent")]
pub struct SequenceSpent;

/// The device calls that write a block, in order.
#[derive(Clone, Copy, Debug, PartialEq, Eq)]
pub enum WriteCall {
    CloseGate,
    SyncClosed,
    PutBody,
    SyncBody,
    OpenGate,
    SyncOpened,
}

/// What a writer needs next: a write of these bytes, `at` bytes after the start of the block, or a sync.
#[derive(Drop)]
pub enum BlockNeed<'a> {
    Write { at: u64, bytes: &'a [u8] },
    Sync,
}

/// The six calls of one write. It goes to the copy that does not count: the gate is closed first, opened last, and each
/// step is made sure of before the next begins.
///
/// A gate that is closed already is not written again: a torn write could open it while the old bytes are still there. The
/// first call then writes no bytes.
#[derive(Drop)]
pub struct WriteSteps {
    /// Room for the bytes of the longest copy.
    copy: [u8; COPY_ROOM],
    /// How many of these bytes the copy has.
    size: usize,
    target: Half,
    closes: bool,
    due: Option<WriteCall>,
}

impl Model for WriteSteps {
    ghost use Rattle.std.specs.Prelude.{◌≡◌, ◌≤◌, slice_range, slice_index};
    ghost use Rattle.torn_block.specs.declared.layout.TheConstants.{COPY_ROOM};
    ghost use Rattle.torn_block.specs.Plan.{Plan};

    ghost Value = { Plan };

    ghost view = { λ s. record { size = s.size; target = s.target; closes = s.closes; tail = slice_range s.copy 1 s.size; due = s.due } };

    ghost invariant = { λ s. (slice_index s.copy 0 ≡ 165) × (1 ≤ s.size) × (s.size ≤ COPY_ROOM) };
}

impl WriteSteps {
    /// The calls that write `body` over a block as its owner read it.
    pub fn new<L: Layout>(read: &Block128, body: &Body) -> Result<WriteSteps, SequenceSpent>
        ensures steps { IfOk result (λ s. s ≡ plan_by L.version read.now (body_in L.version body.now)) }
        ensures spent { IsOk result ↔ (next_number (told_number read.now) ≤ 2 ^ 62) }
    {
        let sequence = match read.current {
            None => 1,
            Some(_) => {
                if read.sequence >= LAST_SEQUENCE {
                    return Err(SequenceSpent);
                }
                read.sequence + 1
            }
        };
        Ok(WriteSteps {
            copy: copy_with::<L>(sequence, body),
            size: L::COPY_LENGTH,
            target: match read.current {
                Some(Half::First) => Half::Second,
                _ => Half::First,
            },
            closes: read.next_is_open,
            due: Some(WriteCall::CloseGate),
        })
    }

    /// What the call that is due needs. After the sixth there is none.
    pub fn next(&self) -> Option<BlockNeed<'_>>
        ensures need { option_map seen_need result ≡ need_of self.now }
        ensures within { LiesWithin (2 * self.now.size) result }
    {
        let gate = match self.target {
            Half::First => 0,
            Half::Second => self.size as u64,
        };
        match self.due? {
            WriteCall::CloseGate => Some(BlockNeed::Write {
                at: gate,
                bytes: if self.closes { &[0] } else { &[] },
            }),
            WriteCall::PutBody => Some(BlockNeed::Write {
                at: gate + 1,
                bytes: &self.copy[1..self.size],
            }),
            WriteCall::OpenGate => Some(BlockNeed::Write {
                at: gate,
                bytes: &self.copy[..1],
            }),
            WriteCall::SyncClosed | WriteCall::SyncBody | WriteCall::SyncOpened => {
                Some(BlockNeed::Sync)
            }
        }
    }

    /// Whether all six calls succeeded.
    pub fn is_done(&self) -> bool
        ensures { IsTrue result ↔ (self.now.due ≡ None) }
    {
        self.due.is_none()
    }

    /// The call that was due succeeded.
    pub fn done(&mut self)
        ensures { self.new ≡ record self.old { due = next_after self.old.due } }
    {
        self.due = match self.due {
            Some(WriteCall::CloseGate) => Some(WriteCall::SyncClosed),
            Some(WriteCall::SyncClosed) => Some(WriteCall::PutBody),
            Some(WriteCall::PutBody) => Some(WriteCall::SyncBody),
            Some(WriteCall::SyncBody) => Some(WriteCall::OpenGate),
            Some(WriteCall::OpenGate) => Some(WriteCall::SyncOpened),
            Some(WriteCall::SyncOpened) | None => None,
        };
    }
}

// An open copy with this sequence number and body.
fn copy_with<L: Layout>(sequence: u64, body: &Body) -> [u8; COPY_ROOM]
    ensures { take (copy_length L.version) result ≡ 165 ∷ tail_with sequence (body_in L.version body.now) }
{
    let mut copy = [0; COPY_ROOM];
    put_copy(
        &mut copy[..L::COPY_LENGTH],
        sequence,
        &body.bytes[..L::COPY_LENGTH - 9],
    );
    copy
}

fn put_copy(copy: &mut [u8], sequence: u64, body: &[u8])
    requires copy { length copy.old ≡ length body.now + 9 }
    requires body { HEADING_LENGTH ≤ length body.now }
    ensures { copy.new ≡ 165 ∷ tail_with sequence body.now }
{
    let (gate, tail) = copy.split_at_mut(1);
    let (front, rest) = tail.split_at_mut(HEADING_LENGTH);
    let (number, back) = rest.split_at_mut(8);
    gate[0] = OPEN_GATE;
    front.copy_from_slice(&body[..HEADING_LENGTH]);
    put_number(number, sequence);
    back.copy_from_slice(&body[HEADING_LENGTH..]);
}

/// Puts a number into eight bytes, the highest first.
pub fn put_number(bytes: &mut [u8], number: u64)
    requires { length bytes.old ≡ 8 }
    ensures { bytes.new ≡ number_bytes number }
{
    BigEndian::write_u64(bytes, number);
}
