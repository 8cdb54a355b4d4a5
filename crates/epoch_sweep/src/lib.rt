//! A sweep of a script over a log without an end: its variants in which one step is preceded by a fault, and whether what recovers after each holds all that was acknowledged.
#![tactic(auto)]

mod ending;
mod interrupting;
mod judging;
mod law;
mod sweeping;
mod tally;

pub use ending::Recovery;
pub use judging::is_right;
pub use law::what_an_epoch_sweep_puts_in;
pub use sweeping::sweep_epochs;
pub use tally::{End, Sweep};
