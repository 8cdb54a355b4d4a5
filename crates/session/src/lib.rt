//! What a session does for a lock: it asks for it, waits, looks whether it is still there, and gives it back, as a machine that names what is to be
//! done next and hears what came of it.
#![tactic(auto)]

mod asking;
mod beginning;
mod claim;
mod evidence;
mod hearing;
mod learned;
mod numbers;
mod order;
mod outcome;
mod pace;
mod releasing;

pub use beginning::Asker;
pub use claim::{Choice, Claim, Goal, Sign, Standing, Step, Then};
pub use evidence::last_request;
pub use learned::Learned;
pub use numbers::{FIRST_CLIENT, FIRST_LOCK, LOCKS_OF_A_HOST, client_of, lock_of};
pub use order::Order;
pub use outcome::{Failure, Outcome, Why};
pub use pace::Pace;
