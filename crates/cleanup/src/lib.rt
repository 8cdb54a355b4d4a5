//! What a session does about locks of processes that are gone: it releases those of its own host number one by one, and purges a host all of whose
//! processes are gone.
#![tactic(auto)]

mod left;
mod purging;
mod whose;

pub use left::Cleanup;
pub use purging::{PurgeOrder, Purging};
pub use whose::Kind;
