//! Scripts over logs of either kind: a script whose first line ends with the word `epochs` is one over a log without an end.
#![tactic(auto)]

mod any_script;
mod lines;
mod plain;
mod reading;

pub use any_script::{AnyScript, EpochScript};
pub use lock_script::ScriptFault;
pub use reading::read_any_script;
