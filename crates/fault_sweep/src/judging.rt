ghost use Rattle.std.specs.Prelude.{◌≡◌, ◌↔◌, ◌≤◌, IsTrue, IfOk, length};
ghost use Rattle.lock_table.specs.Apply.{table_after};
ghost use Rattle.lock_table.specs.Picture.{IsPictureOf};
ghost use Rattle.fault_sweep.specs.Judging.{AllGoBy, GoesByCommands, ShowsAfter, RepliesAfter, is_shown_after};

use disk::NoMemory;
use host::HostAnswer;
use lock_command::Command;
use lock_table::{KnownClient, LockRecord, LockValue, Picture, Reply, Table, is_same_reply};
use simulator::{Answer, Report};
use std::alloc::Global;

/// Whether all that a report lists agrees with a log of these commands. Each acknowledgement has a slot of this log, and the reply
/// that a lock table gives to the command there after the commands before it. Each recovery names a number of commands, no more
/// than there are, and shows the lock table after that many.
pub fn judge(alloc: Global, report: &Report, log: &[Command]) -> Result<bool, NoMemory>
    ensures { IfOk result (λ right. IsTrue right ↔ AllGoBy log.now report.now) }
{
    judge_answers(alloc, report.answers(), log)
}

/// The same of answers that are in no report.
pub fn judge_answers(alloc: Global, answers: &[Answer], log: &[Command]) -> Result<bool, NoMemory>
    ensures { IfOk result (λ right. IsTrue right ↔ AllGoBy log.now answers.now) }
{
    for answer in answers {
        if !goes_by(alloc, answer, log)? {
            return Ok(false);
        }
    }
    Ok(true)
}

/// Whether one answer agrees with the log.
fn goes_by(alloc: Global, answer: &Answer, log: &[Command]) -> Result<bool, NoMemory>
    ensures { IfOk result (λ right. IsTrue right ↔ GoesByCommands log.now answer.now) }
{
    match answer.said {
        HostAnswer::Ack { slot, reply } => replies(alloc, log, usize::from(slot), reply),
        HostAnswer::Recovered { length } => {
            is_shown(alloc, log, usize::from(length), &answer.picture)
        }
        HostAnswer::Looked { length } => {
            is_shown(alloc, log, usize::from(length), &answer.picture)
        }
        HostAnswer::Beaten { .. } | HostAnswer::Marked { .. } | HostAnswer::Refused(_) => Ok(true),
    }
}

/// Whether the log has this slot, and the lock table replies so to the command there after the commands before it.
fn replies(alloc: Global, log: &[Command], slot: usize, reply: Reply) -> Result<bool, NoMemory>
    ensures { IfOk result (λ right. IsTrue right ↔ RepliesAfter log.now slot reply) }
{
    if slot >= log.len() {
        return Ok(false);
    }
    let mut table = fold(alloc, &log[..slot])?;
    Ok(is_same_reply(&table.apply(&log[slot]), &reply))
}

/// Whether there is a picture, and it shows the lock table after this many commands of the log.
fn is_shown(
    alloc: Global,
    log: &[Command],
    count: usize,
    picture: &Option<Picture>,
) -> Result<bool, NoMemory>
    ensures { IfOk result (λ right. IsTrue right ↔ is_shown_after log.now count picture.now) }
{
    match picture {
        Some(shown) => shows(alloc, log, count, shown),
        None => Ok(false),
    }
}

/// Whether the log has this many commands, and the picture shows the lock table after them.
fn shows(alloc: Global, log: &[Command], count: usize, picture: &Picture) -> Result<bool, NoMemory>
    ensures { IfOk result (λ right. IsTrue right ↔ ShowsAfter log.now count picture.now) }
{
    if count > log.len() {
        return Ok(false);
    }
    let table = fold(alloc, &log[..count])?;
    match table.picture(alloc) {
        Ok(other) => Ok(is_same_picture(picture, &other)),
        Err(_) => Err(NoMemory),
    }
}

/// The lock table after these commands.
fn fold(alloc: Global, commands: &[Command]) -> Result<Table, NoMemory>
    ensures { IfOk result (λ table. IsPictureOf table (table_after commands.now)) }
{
    let Ok(mut table) = Table::new(alloc) else {
        return Err(NoMemory);
    };
    for command in commands {
        table.apply(command);
    }
    Ok(table)
}

/// Whether two pictures show the same.
pub fn is_same_picture(a: &Picture, b: &Picture) -> bool
    ensures { IsTrue result ↔ (a.now ≡ b.now) }
{
    are_same_locks(a.locks(), b.locks())
        && are_same_values(a.values(), b.values())
        && are_same_clients(a.clients(), b.clients())
}

fn are_same_locks(a: &[LockRecord], b: &[LockRecord]) -> bool
    ensures { IsTrue result ↔ (a.now ≡ b.now) }
{
    if a.len() != b.len() {
        return false;
    }
    for at in 0..a.len() {
        if !is_same_lock(&a[at], &b[at]) {
            return false;
        }
    }
    true
}

fn is_same_lock(a: &LockRecord, b: &LockRecord) -> bool
    ensures { IsTrue result ↔ (a.now ≡ b.now) }
{
    a.lock == b.lock
        && a.client == b.client
        && a.host == b.host
        && a.name == b.name
        && a.state == b.state
}

fn are_same_values(a: &[LockValue], b: &[LockValue]) -> bool
    ensures { IsTrue result ↔ (a.now ≡ b.now) }
{
    if a.len() != b.len() {
        return false;
    }
    for at in 0..a.len() {
        if !is_same_value(a[at], b[at]) {
            return false;
        }
    }
    true
}

fn is_same_value(a: LockValue, b: LockValue) -> bool
    ensures { IsTrue result ↔ (a ≡ b) }
{
    a == b
}

fn are_same_clients(a: &[KnownClient], b: &[KnownClient]) -> bool
    ensures { IsTrue result ↔ (a.now ≡ b.now) }
{
    if a.len() != b.len() {
        return false;
    }
    for at in 0..a.len() {
        if !is_same_client(&a[at], &b[at]) {
            return false;
        }
    }
    true
}

fn is_same_client(a: &KnownClient, b: &KnownClient) -> bool
    ensures { IsTrue result ↔ (a.now ≡ b.now) }
{
    a.client == b.client && a.request == b.request && is_same_reply(&a.reply, &b.reply)
}
