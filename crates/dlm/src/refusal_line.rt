use arrayvec::ArrayString;
use dlm_tasks::Fault;
use std::fmt::Write;

/// More than the longest line has.
const LONG: usize = 80;

/// The line that tells a refusal. It is whole before it is written, in one call: what other processes write to the same file comes before
/// it or after it.
pub fn refusal_line(fault: Fault) -> ArrayString<LONG> {
    let mut line = ArrayString::new();
    let _ = writeln!(line, "dlm: {fault}");
    line
}
