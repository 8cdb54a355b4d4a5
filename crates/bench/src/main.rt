//! The program: runs each benchmark of the lock manager's parts, and measures them where it is asked to.
#![tactic(auto)]

mod apply;
mod ballast;
mod bench_failure;
mod benchmark;
mod block_write;
mod copies;
mod decode_row;
mod direct;
mod disk_calls;
mod first_path;
mod image;
mod learn;
mod refused;
mod run;
mod tables;
mod timing;
mod waits;
mod whole_attempt;
mod words;

use bench_failure::BenchFailure;
use run::{print_refusals, run_all};
use std::env;
use std::process::ExitCode;
use tables::print_tables;
use words::{BenchTask, task_of};

fn main(rt: HostRuntime) -> ExitCode {
    let ended = match asked(&rt) {
        Ok(BenchTask::Tables) => print_tables(&rt),
        Ok(BenchTask::Refused) => print_refusals(&rt),
        Ok(task) => run_all(&rt, task),
        Err(failure) => Err(failure),
    };
    match ended {
        Ok(()) => ExitCode::SUCCESS,
        Err(failure) => {
            let _ = eprintln!(rt; "bench: {failure}");
            ExitCode::FAILURE
        }
    }
}

/// What the program's own words ask for.
fn asked(rt: &HostRuntime) -> Result<BenchTask, BenchFailure> {
    let alloc = rt.alloc();
    let arguments: Vec<String> = env::args(rt)?.skip(1).collect(alloc)?;
    let words: Vec<&str> = arguments.iter().map(|word| word.as_str()).collect(alloc)?;
    task_of(words.as_slice())
}
