//! The program of the benchmark: makes the inputs of a job that a user waits for from a number, does the job, and prints a digest of all that came of it.
#![tactic(auto)]

mod commands;
mod digest;
mod failure;
mod hands;
mod long_logs;
mod lookers;
mod names;
mod numbers;
mod script_text;
mod scripts;
mod seats;
mod sessions;
mod sweeps;
mod tables;
mod words;

use failure::Failure;
use std::alloc::AllocGlobal;
use std::env;
use std::process::ExitCode;
use std::sync::Wait;
use words::{Job, Size, Task, task_of};

fn main(rt: HostRuntime) -> ExitCode {
    let ended = match asked(&rt) {
        Ok(task) => work(&rt, task),
        Err(failure) => Err(failure),
    };
    match ended {
        Ok(()) => ExitCode::SUCCESS,
        Err(failure) => {
            let _ = eprintln!(rt; "workloads: {failure}");
            ExitCode::FAILURE
        }
    }
}

/// What the program's own words ask for.
fn asked(rt: &HostRuntime) -> Result<Task, Failure> {
    let alloc = rt.alloc();
    let arguments: Vec<String> = env::args(rt)?.skip(1).collect(alloc)?;
    let words: Vec<&str> = arguments.iter().map(|word| word.as_str()).collect(alloc)?;
    task_of(words.as_slice())
}

fn work<R: Print + Wait + AllocGlobal>(rt: &R, task: Task) -> Result<(), Failure> {
    match task {
        Task::Each => {
            for job in Job::ALL {
                report(rt, job, Size::Small, 1)?;
            }
            Ok(())
        }
        Task::One { job, seed } => report(rt, job, Size::Whole, seed),
    }
}

/// Does a job, and prints the digest of what came of it.
fn report<R: Print + Wait + AllocGlobal>(
    rt: &R,
    job: Job,
    size: Size,
    seed: u32,
) -> Result<(), Failure> {
    let alloc = rt.alloc();
    let digest = match job {
        Job::Sweep => sweeps::sweep_scripts(alloc, size, seed)?,
        Job::Run => scripts::run_scripts(alloc, size, seed)?,
        Job::Table => tables::fill_tables(alloc, size, seed)?,
        Job::Look => lookers::look_and_submit(alloc, size, seed)?,
        Job::Recover => long_logs::recover_logs(alloc, size, seed)?,
        Job::Seats => seats::submit_in_seats(rt, size, seed)?,
        Job::Hand => hands::hand_on(alloc, size, seed)?,
    };
    let name = job.name();
    println!(rt; "{name} {digest}")?;
    Ok(())
}
