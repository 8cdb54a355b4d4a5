ghost use Rattle.std.specs.Prelude.{◌≡◌, ◌∷◌, ◌++◌, length};
ghost use Rattle.torn_block.specs.Block.{tail_with};
ghost use Rattle.paxos_block.specs.Saying.{zeros};
ghost use Rattle.paxos_block.specs.Image as images;

use paxos_block::{PBlock, Value, encode};
use torn_block::{
    BLOCK_LENGTH, BODY_LENGTH, COPY_LENGTH, ClusterLayout, HEADING_LENGTH, OPEN_GATE, ROW_LENGTH,
    put_number,
};

/// The block of host 0 in a row of a migrated log.
pub fn block_for(value: &Value) -> [u8; BLOCK_LENGTH]
    ensures { result ≡ images.block_for value.now }
{
    let vote = PBlock {
        mbal: 1,
        bal: 1,
        inp: Some(*value),
        mark: true,
    };
    let body = encode::<ClusterLayout>(0, &vote);
    let mut block = [0; BLOCK_LENGTH];
    put_block(&mut block, &body.bytes);
    block
}

/// A row of a migrated log: this block of host 0, and blank blocks of all other hosts.
pub fn row_for(value: &Value) -> [u8; ROW_LENGTH]
    ensures { result ≡ images.row_for value.now }
{
    let mut row = [0; ROW_LENGTH];
    let (first, _) = row.split_at_mut(BLOCK_LENGTH);
    first.copy_from_slice(&block_for(value));
    row
}

fn put_block(block: &mut [u8], body: &[u8])
    requires block { length block.old ≡ BLOCK_LENGTH }
    requires body { length body.now ≡ BODY_LENGTH }
    ensures { block.new ≡ (OPEN_GATE ∷ tail_with 1 body.now) ++ zeros COPY_LENGTH }
{
    let (first, second) = block.split_at_mut(COPY_LENGTH);
    put_copy(first, body);
    second.fill(0);
}

// An open copy with the first sequence number.
fn put_copy(copy: &mut [u8], body: &[u8])
    requires copy { length copy.old ≡ COPY_LENGTH }
    requires body { length body.now ≡ BODY_LENGTH }
    ensures { copy.new ≡ OPEN_GATE ∷ tail_with 1 body.now }
{
    let (gate, tail) = copy.split_at_mut(1);
    let (front, rest) = tail.split_at_mut(HEADING_LENGTH);
    let (number, back) = rest.split_at_mut(8);
    gate[0] = OPEN_GATE;
    front.copy_from_slice(&body[..HEADING_LENGTH]);
    put_number(number, 1);
    back.copy_from_slice(&body[HEADING_LENGTH..]);
}
