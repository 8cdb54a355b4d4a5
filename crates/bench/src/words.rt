use crate::bench_failure::BenchFailure;

/// What the program is asked to do with each benchmark.
#[derive(Clone, Copy, PartialEq, Eq)]
pub enum BenchTask {
    /// Run it a few times, and tell that it ran.
    Check,
    /// Run it many times, and tell how long that took.
    Measure,
    /// Tell what the commands of each kind take.
    Tables,
    /// Tell how often memory was refused to operations of a host, each of which was made again.
    Refused,
}

/// The task that the words name.
pub fn task_of(words: &[&str]) -> Result<BenchTask, BenchFailure> {
    match words {
        [] => Ok(BenchTask::Check),
        ["times"] => Ok(BenchTask::Measure),
        ["tables"] => Ok(BenchTask::Tables),
        ["refused"] => Ok(BenchTask::Refused),
        _ => Err(BenchFailure::Usage),
    }
}
