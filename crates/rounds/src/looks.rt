//! One look at a slot, which reads and writes nothing: a machine that asks for device calls and hears their answers.

mod end;
mod law;
mod notes;
mod one_look;

pub use end::End;
pub use law::{asks_a_majority, ends_are_shown, only_attaches_and_reads, two_calls_a_disk};
pub use one_look::Look;
