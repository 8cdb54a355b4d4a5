//! Images of logs without an end, as bytes and back: the header, what a new image holds, and how an image of a log that ends becomes one in place.
#![tactic(auto)]

mod any_header;
mod fault;
mod header;
mod in_place;
mod kind;
mod law;
mod number;
mod progress;
mod set;
mod size;

pub use any_header::{AnyHeader, are_one_set, decode_any_header, told_any_length};
pub use fault::HeaderFault;
pub use header::{
    ENDLESS_VERSION, EndlessHeader, decode_endless_header, encode_endless_header, is_endless_header,
};
pub use in_place::{finish_endless, make_endless};
pub use kind::{Kind, USUAL_SLOTS};
pub use law::{headers_come_back, images_become_endless, kinds_are_apart, new_images_hold_nothing};
pub use progress::{Progress, progress_in};
pub use set::{SetFault, check_set};
pub use size::{LEAST_SLOTS, image_size, told_size};
