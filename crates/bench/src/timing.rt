use crate::bench_failure::BenchFailure;
use crate::benchmark::Benchmark;
use std::alloc::Global;
use std::fmt;
use std::time::{Clock, Instant};

/// How often a measurement is made, each time from new; the shortest counts.
pub const ROUNDS: u32 = 20;

/// How long so many operations took together.
#[derive(Clone, Copy)]
pub struct Timing {
    pub count: u32,
    /// Nanoseconds, by the clock that never goes back.
    pub spent: u64,
}

impl Timing {
    /// The shortest of twenty rounds of so many operations.
    pub fn best_of<C: Clock, B: Benchmark>(
        clock: &C,
        alloc: Global,
        count: u32,
    ) -> Result<Timing, BenchFailure> {
        let mut spent = u64::MAX;
        for _ in 0..ROUNDS {
            spent = spent.min(time_once::<C, B>(clock, alloc, count)?);
        }
        Ok(Timing { count, spent })
    }

    /// Operations a second.
    pub fn rate(self) -> u64 {
        u64::from(self.count) * 1_000_000_000 / self.spent.max(1)
    }
}

/// The nanoseconds that a round takes. What is made ready for it is not counted.
fn time_once<C: Clock, B: Benchmark>(
    clock: &C,
    alloc: Global,
    count: u32,
) -> Result<u64, BenchFailure> {
    let mut benchmark = B::new(alloc)?;
    let start = Instant::now(clock)?;
    benchmark.run(count)?;
    let spent = start.elapsed(clock)?;
    Ok(u64::try_from(spent.as_nanos()).unwrap_or(u64::MAX))
}

/// The count, and nanoseconds an operation with one decimal.
impl fmt::Display for Timing {
    fn fmt<W: fmt::Write>(&self, f: &mut fmt::Formatter<W>) -> fmt::Result {
        let count = self.count;
        let tenths = self.spent.saturating_mul(10) / u64::from(count.max(1));
        let whole = tenths / 10;
        let tenth = tenths % 10;
        write!(f, "{count} {whole}.{tenth}")
    }
}

/// How many times as long the operations of `these` took as those of `those`, with two decimals.
#[derive(Clone, Copy)]
pub struct Ratio {
    pub these: Timing,
    pub those: Timing,
}

impl fmt::Display for Ratio {
    fn fmt<W: fmt::Write>(&self, f: &mut fmt::Formatter<W>) -> fmt::Result {
        let hundredths = self.these.spent.saturating_mul(100) / self.those.spent.max(1);
        let whole = hundredths / 100;
        let rest = hundredths % 100;
        write!(f, "{whole}.{rest:02}")
    }
}
