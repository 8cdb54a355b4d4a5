//! The words of the program's command line, and the text of what hosts answer: what `dlm` reads and prints with no device.
#![tactic(auto)]

mod answer_text;
mod given_words;
mod mode_text;
mod reply_text;
mod value_text;
mod words;

pub use answer_text::{AnswerText, RefusalText};
pub use reply_text::ReplyText;
pub use words::{Subcommand, WordsFault, task_of};
