//! Locks in two orders: by name as they are printed, where the queues of a name stand, and by lock number. Searches find a lock, a name, and
//! whose turn it is.
#![tactic(auto)]

mod bits;
mod by_lock_number;
mod by_printed_order;
mod hosts;
mod index;
mod keys;
mod narrowing;
mod printed;
mod purge;
mod state;

pub use by_printed_order::ByPrintedOrder;
pub use index::Index;
pub use keys::SpelledName;
pub use printed::{GrantedGroup, has_locks};
