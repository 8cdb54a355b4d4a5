//! What a lock table shows: its text, and who keeps whom waiting.
#![tactic(auto)]

mod blocked;
mod edges;
mod lock_text;
mod peeling;
mod queue_text;
mod trail;
mod value_text;
mod verdict;
mod waits;

pub use queue_text::queues;
pub use value_text::value_digits;
pub use verdict::{Blocking, CLIENT_NUMBERS};
pub use waits::blocking;
