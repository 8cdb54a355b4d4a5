use crate::apply::Apply;
use crate::bench_failure::BenchFailure;
use crate::benchmark::Benchmark;
use crate::block_write::BlockWrite;
use crate::copies::Copies;
use crate::decode_row::DecodeRow;
use crate::direct::Direct;
use crate::disk_calls::DiskCalls;
use crate::first_path::{best_first_path, first_path};
use crate::learn::Learn;
use crate::refused::refused;
use crate::timing::{Ratio, Timing};
use crate::waits::Waits;
use crate::whole_attempt::WholeAttempt;
use crate::words::BenchTask;
use std::sync::Wait;
use std::time::Clock;

/// How many operations a benchmark does where nothing is measured.
const FEW: u32 = 48;

/// Runs each benchmark, and prints a line for it.
pub fn run_all<R: Print + Wait + Clock + AllocGlobal>(
    rt: &R,
    task: BenchTask,
) -> Result<(), BenchFailure> {
    let small = run_one::<R, DiskCalls<0>>(rt, task, "disk_calls_2k", 1_000_000)?;
    let large = run_one::<R, DiskCalls<4094>>(rt, task, "disk_calls_4m", 1_000_000)?;
    print_ratio(rt, "disk_calls_4m/disk_calls_2k", large, small)?;
    run_one::<R, BlockWrite>(rt, task, "block_write", 200_000)?;
    run_one::<R, DecodeRow>(rt, task, "decode_row", 200_000)?;
    run_one::<R, DecodeRow>(rt, task, "decode_row_untested", 200_000)?;
    let grown = run_one::<R, Apply<false>>(rt, task, "apply", 1_000_000)?;
    run_one::<R, Apply<false>>(rt, task, "apply_maps", 1_000_000)?;
    let renewed = run_one::<R, Apply<true>>(rt, task, "apply_renewed", 1_000_000)?;
    print_ratio(rt, "apply_renewed/apply", renewed, grown)?;
    run_one::<R, Waits>(rt, task, "blocking", 1_000)?;
    let locked = run_first_path(rt, task)?;
    let direct = run_one::<R, Direct>(rt, task, "direct", 4096)?;
    print_ratio(rt, "first_path/direct", locked, direct)?;
    let whole = run_one::<R, WholeAttempt>(rt, task, "attempt", 4096)?;
    let copies = run_one::<R, Copies>(rt, task, "copies", 4096)?;
    print_ratio(rt, "attempt/copies", whole, copies)?;
    run_one::<R, Learn<0>>(rt, task, "learn", 4096)?;
    let first = run_one::<R, Learn<0>>(rt, task, "learn_first", 512)?;
    let last = run_one::<R, Learn<3584>>(rt, task, "learn_last", 512)?;
    print_ratio(rt, "learn_last/learn_first", last, first)?;
    Ok(())
}

/// Runs a few submissions through the locks of a cluster, or measures a whole log of them.
fn run_first_path<R: Print + Wait + Clock + AllocGlobal>(
    rt: &R,
    task: BenchTask,
) -> Result<Option<Timing>, BenchFailure> {
    match task {
        BenchTask::Check => {
            first_path(rt, FEW)?;
            println!(rt; "first_path: ran")?;
            Ok(None)
        }
        BenchTask::Measure => {
            let timing = best_first_path(rt, 4096)?;
            let rate = timing.rate();
            println!(rt; "first_path {timing}")?;
            println!(rt; "first_path/second {rate}")?;
            Ok(Some(timing))
        }
        BenchTask::Tables | BenchTask::Refused => Ok(None),
    }
}

/// Prints how often memory was refused to a host's operations, and where.
pub fn print_refusals<R: Print + Wait + AllocGlobal>(rt: &R) -> Result<(), BenchFailure> {
    let refusals = refused(rt)?;
    println!(rt; "submissions {}", refusals.submissions)?;
    println!(rt; "calls {}", refusals.calls)?;
    println!(rt; "marks {}", refusals.marks)?;
    println!(rt; "restarts {}", refusals.restarts)?;
    Ok(())
}

/// Runs a benchmark a few times, or measures it over so many.
fn run_one<R: Print + Clock + AllocGlobal, B: Benchmark>(
    rt: &R,
    task: BenchTask,
    name: &str,
    count: u32,
) -> Result<Option<Timing>, BenchFailure> {
    match task {
        BenchTask::Check => {
            B::new(rt.alloc())?.run(FEW)?;
            println!(rt; "{name}: ran")?;
            Ok(None)
        }
        BenchTask::Measure => {
            let timing = Timing::best_of::<R, B>(rt, rt.alloc(), count)?;
            println!(rt; "{name} {timing}")?;
            Ok(Some(timing))
        }
        BenchTask::Tables | BenchTask::Refused => Ok(None),
    }
}

/// Prints how two figures compare, where both were measured.
fn print_ratio<R: Print>(
    rt: &R,
    name: &str,
    these: Option<Timing>,
    those: Option<Timing>,
) -> Result<(), BenchFailure> {
    if let (Some(these), Some(those)) = (these, those) {
        let ratio = Ratio { these, those };
        println!(rt; "{name} {ratio}")?;
    }
    Ok(())
}
