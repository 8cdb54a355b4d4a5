use crate::bench_failure::BenchFailure;
use std::alloc::Global;

/// Work that is done a number of times.
pub trait Benchmark: Sized + Drop {
    /// All that the work needs.
    fn new(alloc: Global) -> Result<Self, BenchFailure>;

    /// Does the work so many times. An operation with a wrong outcome ends it.
    fn run(&mut self, count: u32) -> Result<(), BenchFailure>;
}
