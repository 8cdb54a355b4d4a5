//! No variant of a script over a log without an end is wrong: whatever happens, what recovers then holds all that was acknowledged.
#![tactic(auto)]

mod law;

pub use law::{no_variant_is_wrong, recoveries_are_right};
