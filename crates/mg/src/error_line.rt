use arrayvec::ArrayString;
use dlm_tasks::Fault;
use mg_words::{WrongText, shown};
use std::fmt::Write;

/// More than the longest line has.
const LONG: usize = 256;

// A line is whole before it is written, in one call: what other processes write to the same file comes before it or after it.

/// The line that says which word is wrong, and what would be right.
pub fn wrong_line(wrong: WrongText<'_>) -> ArrayString<LONG> {
    let mut line = ArrayString::new();
    let _ = writeln!(line, "mg: {wrong} (see man mg)");
    line
}

/// The line that tells a refusal, and of which folder or script.
pub fn refusal_line(subject: &str, fault: Fault) -> ArrayString<LONG> {
    let mut line = ArrayString::new();
    let subject = shown(subject);
    let _ = writeln!(line, "mg: {subject}: {fault} (see REFUSALS.md)");
    line
}
