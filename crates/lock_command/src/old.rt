ghost use Rattle.std.specs.Prelude.{◌≡◌, ◌↔◌, ◌<◌, ◌++◌, replicate, IfSome, IsTrue, Some};
ghost use Rattle.lock_command.specs.declared.value.TheConstants.{LOCK_VALUE_LENGTH};
ghost use Rattle.lock_command.specs.Old.{same_action, as_today, IsOldSpelling, PurgesOld, IsOld, upgraded_action, upgraded};

use crate::command::{Action, Command};
use crate::mode::Mode;
use crate::name::LockName;
use crate::number::{ClientNumber, HostNumber, LockNumber, RequestNumber};
use crate::reading::decode;
use crate::spelling::{COMMAND_LENGTH, VALUE_AT, Value};

/// The most hosts that a cluster of the first layout has.
pub const OLD_HOSTS: u8 = 8;

/// How many bytes a command of the first layout has: those of today without the value.
pub const OLD_COMMAND_LENGTH: usize = VALUE_AT;

/// The bytes of a command of the first layout.
pub type OldValue = [u8; OLD_COMMAND_LENGTH];

/// A command of the first layout, which has no lock values and eight hosts.
#[derive(Clone, Copy, Debug)]
pub struct OldCommand {
    pub host: HostNumber,
    pub client: ClientNumber,
    pub request: RequestNumber,
    pub action: OldAction,
}

/// What it asks. Each means what the action of that name means today.
#[derive(Clone, Copy, Debug)]
pub enum OldAction {
    Enqueue {
        lock: LockNumber,
        name: LockName,
        mode: Mode,
        no_queue: bool,
    },
    Convert {
        lock: LockNumber,
        mode: Mode,
        no_queue: bool,
    },
    Release(LockNumber),
    Cancel(LockNumber),
    Status(LockNumber),
    Purge(HostNumber),
}

fn is_old_host(host: HostNumber) -> bool
    ensures { IsTrue result ↔ (host < OLD_HOSTS) }
{
    host.get() < OLD_HOSTS
}

/// The old action that means the same, if there is one: none gives a value, and none purges quietly.
fn old_action(action: &Action) -> Option<OldAction>
    ensures found { IfSome result (λ a. (same_action a ≡ action.now) × PurgesOld a) }
    ensures only { (a : OldAction) → PurgesOld a → same_action a ≡ action.now → result ≡ Some a }
{
    match action {
        Action::Enqueue {
            lock,
            name,
            mode,
            no_queue,
        } => Some(OldAction::Enqueue {
            lock: *lock,
            name: *name,
            mode: *mode,
            no_queue: *no_queue,
        }),
        Action::Convert {
            lock,
            mode,
            no_queue,
            value: None,
        } => Some(OldAction::Convert {
            lock: *lock,
            mode: *mode,
            no_queue: *no_queue,
        }),
        Action::Release { lock, value: None } => Some(OldAction::Release(*lock)),
        Action::Cancel(lock) => Some(OldAction::Cancel(*lock)),
        Action::Status(lock) => Some(OldAction::Status(*lock)),
        Action::Purge(host) if is_old_host(*host) => Some(OldAction::Purge(*host)),
        _ => None,
    }
}

/// The old command that means the same, if there is one.
fn old_of(command: &Command) -> Option<OldCommand>
    ensures found { IfSome result (λ c. (as_today c ≡ command.now) × (c.host < OLD_HOSTS) × PurgesOld c.action) }
    ensures only { (c : OldCommand) → IsOld c → as_today c ≡ command.now → result ≡ Some c }
{
    if !is_old_host(command.host) {
        return None;
    }
    Some(OldCommand {
        host: command.host,
        client: command.client,
        request: command.request,
        action: old_action(&command.action)?,
    })
}

/// The bytes, and zeros for a value behind them.
fn without_value(value: &OldValue) -> Value
    ensures { result ≡ value.now ++ replicate LOCK_VALUE_LENGTH 0 }
{
    let mut today = [0; COMMAND_LENGTH];
    today[..OLD_COMMAND_LENGTH].copy_from_slice(value);
    today
}

/// The command of the first layout that the bytes spell, if they are the one spelling of such a command.
pub fn decode_old(value: &OldValue) -> Option<OldCommand>
    ensures found { IfSome result (λ c. IsOld c) }
    ensures spelled { IfSome result (λ c. IsOldSpelling c value.now) }
    ensures only { (c : OldCommand) → IsOld c → IsOldSpelling c value.now → result ≡ Some c }
{
    let Some(command) = decode(&without_value(value)) else {
        return None;
    };
    old_of(&command)
}

/// What stands for a command of the first layout in a log that was moved: the same, but a purge leaves all values valid.
pub fn upgrade(old: &OldCommand) -> Command
    ensures { result ≡ upgraded old.now }
{
    Command {
        host: old.host,
        client: old.client,
        request: old.request,
        action: upgraded_action(&old.action),
    }
}

fn upgraded_action(action: &OldAction) -> Action
    ensures { result ≡ upgraded_action action.now }
{
    match action {
        OldAction::Enqueue {
            lock,
            name,
            mode,
            no_queue,
        } => Action::Enqueue {
            lock: *lock,
            name: *name,
            mode: *mode,
            no_queue: *no_queue,
        },
        OldAction::Convert {
            lock,
            mode,
            no_queue,
        } => Action::Convert {
            lock: *lock,
            mode: *mode,
            no_queue: *no_queue,
            value: None,
        },
        OldAction::Release(lock) => Action::Release {
            lock: *lock,
            value: None,
        },
        OldAction::Cancel(lock) => Action::Cancel(*lock),
        OldAction::Status(lock) => Action::Status(*lock),
        OldAction::Purge(host) => Action::QuietPurge(*host),
    }
}
