//! Runs a script over simulated hosts of all epochs, and prints what they answer.
#![tactic(auto)]

mod answer_text;
mod failure;
mod happening;
mod playing;
mod showing;

pub use failure::PlayFailure;
pub use happening::{Said, happen};
pub use playing::play;
