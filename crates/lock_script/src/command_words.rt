ghost use Rattle.std.specs.Prelude.{◌≡◌};
ghost use Rattle.lock_script.specs.Words.{words_of};
ghost use Rattle.lock_script.specs.Reading.{no_queue_at, value_at, enqueue_at, convert_at, release_at, action_at, command_at};

use crate::bytes::is;
use crate::digits::value_of;
use crate::fields::{client_of, host_of, lock_of, request_of};
use crate::mode_words::mode_of;
use crate::words::Words;
use lock_command::{Action, Command, HostNumber, LockName, ValueBytes};

/// The command that this text is, submitted through a host. Single spaces part its words.
pub fn read_command(host: HostNumber, text: &[u8]) -> Option<Command>
    ensures { result ≡ command_at host (words_of text.now) }
{
    command_at(host, &mut Words::new(text))
}

/// The command that these words are, submitted through a host.
#[tactic(auto, unfolding(crate::specs::Reading::command_at))]
pub fn command_at(host: HostNumber, words: &mut Words<'_>) -> Option<Command>
    ensures { result ≡ command_at host words.old }
{
    let kind = words.next()?;
    let client = client_of(words.next()?)?;
    let request = request_of(words.next()?)?;
    let action = action_at(kind, words)?;
    Some(Command {
        host,
        client,
        request,
        action,
    })
}

/// What is asked, by its word and those behind the request's number.
#[tactic(auto, unfolding(crate::specs::Reading::action_at))]
fn action_at(kind: &[u8], words: &mut Words<'_>) -> Option<Action>
    ensures { result ≡ action_at kind.now words.old }
{
    if is(kind, b"enqueue") {
        enqueue_at(words)
    } else if is(kind, b"convert") {
        convert_at(words)
    } else if is(kind, b"release") {
        release_at(words)
    } else if is(kind, b"cancel") {
        Some(Action::Cancel(lock_of(words.last()?)?))
    } else if is(kind, b"status") {
        Some(Action::Status(lock_of(words.last()?)?))
    } else if is(kind, b"purge") {
        Some(Action::Purge(host_of(words.last()?)?))
    } else if is(kind, b"forget") {
        Some(Action::Forget(client_of(words.last()?)?))
    } else {
        None
    }
}

#[tactic(auto, unfolding(crate::specs::Reading::enqueue_at))]
fn enqueue_at(words: &mut Words<'_>) -> Option<Action>
    ensures { result ≡ enqueue_at words.old }
{
    let lock = lock_of(words.next()?)?;
    let mode = mode_of(words.next()?)?;
    let name = LockName::new(words.next()?)?;
    let no_queue = no_queue_at(words)?;
    Some(Action::Enqueue {
        lock,
        name,
        mode,
        no_queue,
    })
}

#[tactic(auto, unfolding(crate::specs::Reading::convert_at))]
fn convert_at(words: &mut Words<'_>) -> Option<Action>
    ensures { result ≡ convert_at words.old }
{
    let lock = lock_of(words.next()?)?;
    let mode = mode_of(words.next()?)?;
    let no_queue = words.skip(b"noqueue");
    let value = value_at(words)?;
    Some(Action::Convert {
        lock,
        mode,
        no_queue,
        value,
    })
}

#[tactic(auto, unfolding(crate::specs::Reading::release_at))]
fn release_at(words: &mut Words<'_>) -> Option<Action>
    ensures { result ≡ release_at words.old }
{
    let lock = lock_of(words.next()?)?;
    let value = value_at(words)?;
    Some(Action::Release { lock, value })
}

/// Reads an optional `value` and its digits. `Some(None)` if no word is left, and `None` for any other words.
#[tactic(auto, unfolding(crate::specs::Reading::value_at))]
fn value_at(words: &mut Words<'_>) -> Option<Option<ValueBytes>>
    ensures { result ≡ value_at words.old }
{
    if words.is_empty() {
        return Some(None);
    }
    if !words.skip(b"value") {
        return None;
    }
    Some(Some(value_of(words.last()?)?))
}

/// Reads an optional `noqueue`: `Some(false)` if no word is left, and `None` for any other words.
#[tactic(auto, unfolding(crate::specs::Reading::no_queue_at))]
fn no_queue_at(words: &mut Words<'_>) -> Option<bool>
    ensures { result ≡ no_queue_at words.old }
{
    if words.is_empty() {
        return Some(false);
    }
    match words.last()? {
        b"noqueue" => Some(true),
        _ => None,
    }
}
