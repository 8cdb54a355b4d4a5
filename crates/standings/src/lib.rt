//! Epochs of a disk that is used again and again: where each is, which number a host has in it, and whom two readings of the standings show.
#![tactic(auto)]

mod epoch;
mod law;
mod place;
mod reading;

pub use epoch::{Epoch, LAST_EPOCH, epoch_by, newest};
pub use law::numbers_tell_epochs;
pub use place::{area_base, number_place, standings_place, whole_length};
pub use reading::{decode_standings, has_passed, mask, shown};
