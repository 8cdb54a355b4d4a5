ghost use Rattle.std.specs.Prelude.{bytes_eq, ◌≡◌, ◌↔◌, slice_index, IfSome, IsTrue};
ghost use Rattle.lock_command.specs.Command.{spelling, Fits as FitsCommand};
ghost use Rattle.lock_command.specs.Reading.{host_of, lock_at, request_at, mode_of, name_at, no_queue_at, value_at, enqueue_at, convert_at, state_of, state_at, count_at, answer_at, told_of, told_at, carried_lock_at, carried_client_at, action_at, command_at, decoded};

use crate::command::{Action, Command};
use crate::mode::Mode;
use crate::name::LockName;
use crate::number::{ClientNumber, HostNumber, LockNumber, RequestNumber};
use crate::reply::{Answer, LockValue, Refusal, Reply};
use crate::spelling::{ANSWER_AT, NAME_AT, PURGED_AT, VALUE_AT, Value};
use crate::state::LockState;
use crate::value::{LOCK_VALUE_LENGTH, ValueBytes};
use byteorder::{BigEndian, ByteOrder};

fn host_of(byte: u8) -> Option<HostNumber>
    ensures { result ≡ host_of byte }
{
    HostNumber::new(byte)
}

#[tactic(auto, unfolding(crate::specs::Reading::lock_at))]
fn lock_at(value: &Value) -> Option<LockNumber>
    ensures { result ≡ lock_at value.now }
{
    LockNumber::new(BigEndian::read_u16(&value[6..]))
}

#[tactic(auto, unfolding(crate::specs::Reading::request_at))]
fn request_at(value: &Value) -> Option<RequestNumber>
    ensures { result ≡ request_at value.now }
{
    RequestNumber::new(BigEndian::read_u64(&value[8..]))
}

#[tactic(auto, unfolding(crate::specs::Reading::mode_of))]
fn mode_of(byte: u8) -> Option<Mode>
    ensures { result ≡ mode_of byte }
{
    match byte {
        0 => Some(Mode::Null),
        1 => Some(Mode::ConcurrentRead),
        2 => Some(Mode::ConcurrentWrite),
        3 => Some(Mode::ProtectedRead),
        4 => Some(Mode::ProtectedWrite),
        5 => Some(Mode::Exclusive),
        _ => None,
    }
}

#[tactic(auto, unfolding(crate::specs::Reading::name_at))]
fn name_at(value: &Value) -> Option<LockName>
    ensures { result ≡ name_at value.now }
{
    let len = value[5] as usize;
    if len > LockName::LONGEST {
        return None;
    }
    LockName::new(&value[NAME_AT..NAME_AT + len])
}

fn no_queue_at(value: &Value) -> bool
    ensures { result ≡ no_queue_at value.now }
{
    value[4] == 1 || value[4] == 3
}

#[tactic(auto, unfolding(crate::specs::Reading::value_at))]
fn value_at(value: &Value) -> Option<ValueBytes>
    ensures { result ≡ value_at value.now }
{
    if value[4] < 2 {
        return None;
    }
    let mut given = [0; LOCK_VALUE_LENGTH];
    given.copy_from_slice(&value[VALUE_AT..]);
    Some(ValueBytes::new(given))
}

#[tactic(auto, unfolding(crate::specs::Reading::enqueue_at))]
fn enqueue_at(value: &Value) -> Option<Action>
    ensures { result ≡ enqueue_at value.now }
{
    Some(Action::Enqueue {
        lock: lock_at(value)?,
        name: name_at(value)?,
        mode: mode_of(value[3])?,
        no_queue: no_queue_at(value),
    })
}

#[tactic(auto, unfolding(crate::specs::Reading::convert_at))]
fn convert_at(value: &Value) -> Option<Action>
    ensures { result ≡ convert_at value.now }
{
    Some(Action::Convert {
        lock: lock_at(value)?,
        mode: mode_of(value[3])?,
        no_queue: no_queue_at(value),
        value: value_at(value),
    })
}

#[tactic(auto, unfolding(crate::specs::Reading::state_of))]
fn state_of(number: u8, mode: Mode) -> Option<LockState>
    ensures { result ≡ state_of number mode }
{
    let wanted = match number {
        0 => return Some(LockState::Granted(mode)),
        1 => return Some(LockState::Waiting(mode)),
        2 => Mode::Null,
        3 => Mode::ConcurrentRead,
        4 => Mode::ConcurrentWrite,
        5 => Mode::ProtectedRead,
        6 => Mode::ProtectedWrite,
        7 => Mode::Exclusive,
        _ => return None,
    };
    Some(LockState::Converting { held: mode, wanted })
}

#[tactic(auto, unfolding(crate::specs::Reading::state_at))]
fn state_at(value: &Value) -> Option<LockState>
    ensures { result ≡ state_at value.now }
{
    state_of(value[ANSWER_AT], mode_of(value[3])?)
}

#[tactic(auto, unfolding(crate::specs::Reading::count_at))]
fn count_at(value: &Value) -> u16
    ensures { result ≡ count_at value.now }
{
    BigEndian::read_u16(&value[6..])
}

#[tactic(auto, unfolding(crate::specs::Reading::answer_at))]
fn answer_at(value: &Value) -> Option<Answer>
    ensures { result ≡ answer_at value.now }
{
    match value[ANSWER_AT] {
        8 => Some(Answer::Granted),
        9 => Some(Answer::Queued),
        10 => Some(Answer::Released),
        21 => Some(Answer::Cancelled),
        22 => Some(Answer::Purged(count_at(value))),
        23 => Some(Answer::Forgotten),
        number => {
            if number < 8 {
                Some(Answer::State(state_at(value)?))
            } else {
                Some(Answer::Refused(Refusal::of_number(number)?))
            }
        }
    }
}

#[tactic(auto, unfolding(crate::specs::Reading::told_of))]
fn told_of(value: &Value, valid: bool) -> Option<LockValue>
    ensures { result ≡ told_of value.now valid }
{
    let mut bytes = [0; LOCK_VALUE_LENGTH];
    bytes.copy_from_slice(&value[VALUE_AT..]);
    Some(LockValue { bytes, valid })
}

#[tactic(auto, unfolding(crate::specs::Reading::told_at))]
fn told_at(value: &Value) -> Option<LockValue>
    ensures { result ≡ told_at value.now }
{
    match value[4] {
        2 => told_of(value, true),
        6 => told_of(value, false),
        _ => None,
    }
}

#[tactic(auto, unfolding(crate::specs::Reading::carried_lock_at))]
fn carried_lock_at(value: &Value) -> Option<Action>
    ensures { result ≡ carried_lock_at value.now }
{
    Some(Action::CarryLock {
        lock: lock_at(value)?,
        name: name_at(value)?,
        state: state_at(value)?,
        value: told_at(value)?,
    })
}

#[tactic(auto, unfolding(crate::specs::Reading::carried_client_at))]
fn carried_client_at(value: &Value) -> Option<Action>
    ensures { result ≡ carried_client_at value.now }
{
    Some(Action::CarryClient(Reply {
        answer: answer_at(value)?,
        value: told_at(value),
    }))
}

#[tactic(auto, unfolding(crate::specs::Reading::action_at))]
fn action_at(value: &Value) -> Option<Action>
    ensures { result ≡ action_at value.now }
{
    match value[0] {
        1 => enqueue_at(value),
        2 => convert_at(value),
        3 => Some(Action::Release {
            lock: lock_at(value)?,
            value: value_at(value),
        }),
        4 => Some(Action::Cancel(lock_at(value)?)),
        5 => Some(Action::Status(lock_at(value)?)),
        6 => Some(Action::Purge(host_of(value[PURGED_AT])?)),
        7 => Some(Action::QuietPurge(host_of(value[PURGED_AT])?)),
        8 => carried_lock_at(value),
        9 => carried_client_at(value),
        10 => Some(Action::Forget(ClientNumber::new(value[PURGED_AT]))),
        _ => None,
    }
}

#[tactic(auto, unfolding(crate::specs::Reading::command_at))]
fn command_at(value: &Value) -> Option<Command>
    ensures { result ≡ command_at value.now }
{
    Some(Command {
        host: host_of(value[1])?,
        client: ClientNumber::new(value[2]),
        request: request_at(value)?,
        action: action_at(value)?,
    })
}

/// Whether the bytes are the command's spelling, to the last of them.
fn is_spelled(command: &Command, value: &Value) -> bool
    ensures same { IsTrue result ↔ (value.now ≡ spelling command.now) }
    ensures exact { result ≡ bytes_eq (spelling command.now) value.now }
{
    command.encode() == *value
}

/// The command that the bytes spell, if they are the one spelling of a command.
pub fn decode(value: &Value) -> Option<Command>
    ensures found { IfSome result (λ c. FitsCommand c) }
    ensures spelled { IfSome result (λ c. value.now ≡ spelling c) }
    ensures only { (c : Command) → FitsCommand c → value.now ≡ spelling c → result ≡ Some c }
    // The result, once more, as a function that definitions of other crates can compute with.
    ensures exact { result ≡ decoded value.now }
{
    let command = command_at(value)?;
    // Spelling the command again and comparing finds what reading it does not: bytes that no field of its kind uses, flags that
    // the kind lacks, and a value without its flag.
    if is_spelled(&command, value) {
        Some(command)
    } else {
        None
    }
}
