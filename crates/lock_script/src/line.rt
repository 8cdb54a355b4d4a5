ghost use Rattle.std.specs.Prelude.{◌≡◌, IfOk};
ghost use Rattle.lock_script.specs.Words.{words_of, words_behind};
ghost use Rattle.lock_script.specs.Reading as Read;

use crate::bytes::is;
use crate::command_words::command_at;
use crate::digits::given_of;
use crate::event::Event;
use crate::fault_bytes::FaultBytes;
use crate::fields::{disk_of, host_of, slot_of, times_of, tries_of};
use crate::number::number_in;
use crate::show::View;
use crate::words::Words;
use lock_command::{Command, HostNumber};
use paxos_block::Config;
use std::alloc::{AllocError, Global};
use torn_block::{DISKS, SLOTS};

/// The most disks of a cluster.
const MOST_DISKS: u64 = DISKS as u64;

/// The most slots of its log.
const MOST_SLOTS: u64 = SLOTS as u64;

/// What a line says that is not passed over.
#[derive(Drop)]
pub enum Line {
    Cluster(Config),
    Log(Command),
    Once(Event),
    Steps { host: HostNumber, times: u32 },
    Show { view: View, host: HostNumber },
}

/// The line with these bytes, its end left off.
#[tactic(auto, unfolding(crate::specs::Reading::line_at, crate::specs::Reading::said_at))]
pub fn line_of(alloc: Global, bytes: &[u8]) -> Result<Option<Line>, AllocError>
    ensures { IfOk result (λ line. line ≡ Read.line_at (words_of bytes.now)) }
{
    let mut words = Words::new(bytes);
    let Some(kind) = words.next() else {
        return Ok(None);
    };
    if is(kind, b"tear") {
        tear_at(alloc, &mut words)
    } else if is(kind, b"fail") {
        fail_at(alloc, &mut words)
    } else if is(kind, b"crash") {
        crash_at(alloc, &mut words)
    } else {
        Ok(plain_at(kind, &mut words))
    }
}

/// The line, where it gives no bytes.
#[tactic(auto, unfolding(crate::specs::Reading::plain_at))]
fn plain_at(kind: &[u8], words: &mut Words<'_>) -> Option<Line>
    ensures { result ≡ Read.plain_at kind.now words.old }
{
    if is(kind, b"step") {
        step_at(words)
    } else if is(kind, b"submit") {
        submit_at(words)
    } else if is(kind, b"recover") {
        recover_at(words)
    } else if is(kind, b"look") {
        Some(Line::Once(Event::Look(host_of(words.last()?)?)))
    } else if is(kind, b"beat") {
        Some(Line::Once(Event::Beat(host_of(words.last()?)?)))
    } else if is(kind, b"mark") {
        mark_at(words)
    } else if is(kind, b"start") {
        Some(Line::Once(Event::Start(host_of(words.last()?)?)))
    } else if is(kind, b"stop") {
        Some(Line::Once(Event::Stop(host_of(words.last()?)?)))
    } else if is(kind, b"gone") {
        Some(Line::Once(Event::DiskGone(disk_of(words.last()?)?)))
    } else if is(kind, b"show") {
        show_at(View::Queues, words)
    } else if is(kind, b"blocking") {
        show_at(View::Blocking, words)
    } else if is(kind, b"log") {
        log_at(words)
    } else if is(kind, b"cluster") {
        cluster_at(words)
    } else {
        None
    }
}

#[tactic(auto, unfolding(crate::specs::Reading::cluster_at))]
fn cluster_at(words: &mut Words<'_>) -> Option<Line>
    ensures { result ≡ Read.cluster_at words.old }
{
    let disks = number_in(words.next()?, 1, MOST_DISKS)? as u8;
    let slots = number_in(words.last()?, 1, MOST_SLOTS)? as u16;
    Some(Line::Cluster(Config::new(disks, slots)?))
}

#[tactic(auto, unfolding(crate::specs::Reading::log_at))]
fn log_at(words: &mut Words<'_>) -> Option<Line>
    ensures { result ≡ Read.log_at words.old }
{
    let host = next_host(words)?;
    let command = command_at(host, words)?;
    Some(Line::Log(command))
}

#[tactic(auto, unfolding(crate::specs::Reading::submit_at))]
fn submit_at(words: &mut Words<'_>) -> Option<Line>
    ensures { result ≡ Read.submit_at words.old }
{
    let host = next_host(words)?;
    let tries = tries_of(words.next()?)?;
    let command = command_at(host, words)?;
    Some(Line::Once(Event::Submit { command, tries }))
}

#[tactic(auto, unfolding(crate::specs::Reading::recover_at))]
fn recover_at(words: &mut Words<'_>) -> Option<Line>
    ensures { result ≡ Read.recover_at words.old }
{
    let host = next_host(words)?;
    let tries = tries_of(words.last()?)?;
    Some(Line::Once(Event::Recover { host, tries }))
}

#[tactic(auto, unfolding(crate::specs::Reading::mark_at))]
fn mark_at(words: &mut Words<'_>) -> Option<Line>
    ensures { result ≡ Read.mark_at words.old }
{
    let host = next_host(words)?;
    let slot = slot_of(words.last()?)?;
    Some(Line::Once(Event::Mark { host, slot }))
}

#[tactic(auto, unfolding(crate::specs::Reading::step_at))]
fn step_at(words: &mut Words<'_>) -> Option<Line>
    ensures { result ≡ Read.step_at words.old }
{
    let host = next_host(words)?;
    if words.is_empty() {
        return Some(Line::Once(Event::Step(host)));
    }
    let times = times_of(words.last()?)?;
    Some(Line::Steps { host, times })
}

#[tactic(auto, unfolding(crate::specs::Reading::show_at))]
fn show_at(view: View, words: &mut Words<'_>) -> Option<Line>
    ensures { result ≡ Read.show_at view words.old }
{
    let host = host_of(words.last()?)?;
    Some(Line::Show { view, host })
}

/// The host that the next word names.
fn next_host(words: &mut Words<'_>) -> Option<HostNumber>
    ensures host { result ≡ Read.next_host words.old }
    ensures behind { words.new ≡ words_behind words.old }
{
    host_of(words.next()?)
}

/// The disk that the next word names.
fn next_disk(words: &mut Words<'_>) -> Option<u8>
    ensures disk { result ≡ Read.next_disk words.old }
    ensures behind { words.new ≡ words_behind words.old }
{
    disk_of(words.next()?)
}

/// The bytes that the last word gives.
fn last_given(alloc: Global, words: &mut Words<'_>) -> Result<Option<FaultBytes>, AllocError>
    ensures { IfOk result (λ given. given ≡ Read.last_given words.old) }
{
    match words.last() {
        Some(word) => given_of(alloc, word),
        None => Ok(None),
    }
}

#[tactic(auto, unfolding(crate::specs::Reading::tear_at))]
fn tear_at(alloc: Global, words: &mut Words<'_>) -> Result<Option<Line>, AllocError>
    ensures { IfOk result (λ line. line ≡ Read.tear_at words.old) }
{
    let Some(host) = next_host(words) else {
        return Ok(None);
    };
    let Some(given) = last_given(alloc, words)? else {
        return Ok(None);
    };
    Ok(Some(Line::Once(Event::Tear { host, given })))
}

#[tactic(auto, unfolding(crate::specs::Reading::fail_at))]
fn fail_at(alloc: Global, words: &mut Words<'_>) -> Result<Option<Line>, AllocError>
    ensures { IfOk result (λ line. line ≡ Read.fail_at words.old) }
{
    let Some(host) = next_host(words) else {
        return Ok(None);
    };
    let Some(given) = last_given(alloc, words)? else {
        return Ok(None);
    };
    Ok(Some(Line::Once(Event::FailCall { host, given })))
}

#[tactic(auto, unfolding(crate::specs::Reading::crash_at))]
fn crash_at(alloc: Global, words: &mut Words<'_>) -> Result<Option<Line>, AllocError>
    ensures { IfOk result (λ line. line ≡ Read.crash_at words.old) }
{
    let Some(disk) = next_disk(words) else {
        return Ok(None);
    };
    let Some(given) = last_given(alloc, words)? else {
        return Ok(None);
    };
    Ok(Some(Line::Once(Event::DiskCrash { disk, given })))
}
