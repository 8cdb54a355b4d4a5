//! A sweep: the variants of a script in which one step is preceded by a fault, and whether all that is answered in them goes by one log.
#![tactic(auto)]

mod interrupting;
mod judging;
mod law;
mod replay;
mod sweeping;
mod tally;

pub use judging::{is_same_picture, judge};
pub use law::what_a_sweep_puts_in;
pub use sweeping::sweep;
pub use tally::Sweep;
