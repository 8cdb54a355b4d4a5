//! A block of two copies that is written in six device calls, and reads whole whatever a crash leaves.
#![tactic(auto)]

mod block;
mod damage;
mod law;
mod layout;
mod write_steps;

pub use block::{Block128, Body, Half, OPEN_GATE, is_open, read_block, sequence_in};
pub use damage::{has_twins, is_sequence};
pub use law::{registers, rows_are_read_at_once, six_calls};
pub use layout::{
    BLOCK_LENGTH, BODY_LENGTH, BODY_ROOM, COPY_LENGTH, COPY_ROOM, ClusterLayout, DISKS,
    HEADER_LENGTH, HEADING_LENGTH, HOSTS, HOSTS_ROOM, LAST_SEQUENCE, Layout, Layout1, Layout2,
    ROW_LENGTH, SLOTS, TAIL_LENGTH, VALUE_LENGTH, VERSION,
};
pub use write_steps::{BlockNeed, SequenceSpent, WriteCall, WriteSteps, put_number};
