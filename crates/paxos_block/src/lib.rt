//! Blocks of Disk Paxos, the rows of a slot and the headers of images, as bytes of a disk and back.
#![tactic(auto)]

mod ballot;
mod block;
mod cell;
mod config;
mod damaged;
mod gist;
mod header;
mod law;
mod number;
mod place;
mod row;
mod slot_count;

pub use ballot::{LAST_BALLOT, ballot_above, is_ballot_of, majority};
pub use block::{PBlock, Value, decode, encode, may_say};
pub use cell::Cell;
pub use config::Config;
pub use damaged::Damaged;
pub use gist::{Gist, read_gist};
pub use header::{Header, decode_header, encode_header, is_formatted, is_header, told_length};
pub use law::{ballots_and_majorities, blocks_apart, blocks_say, rows_say, writes_stay_sound};
pub use place::{AREA_PLACE, beat_place, block_place, image_length, row_place};
pub use row::{Row, damaged_hosts, decode_row, read_row};
pub use slot_count::SlotCount;
