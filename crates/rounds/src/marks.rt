//! One marking of a learned slot over all disks, call by call: a machine that asks for device calls and hears their answers.

mod end;
mod law;
mod one_marking;

pub use end::End;
pub use law::nine_calls_a_disk;
pub use one_marking::Marking;
