//! Runs and sweeps the script of a file, or of the standard input: what `dlm` and `mg` do alike.
#![tactic(auto)]

mod scripts;

pub use scripts::{run_file, sweep_file};
