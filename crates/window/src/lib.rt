//! Between a host's core, which works on the image of one epoch, and disks of two areas: it moves the core's calls into the epoch's area, and shows
//! of each row only the blocks of hosts that are inside.
#![tactic(auto)]

mod outcome;
mod sight;
mod standing;
mod standpoint;
mod step;
mod window;

pub use outcome::Outcome;
pub use window::Window;
