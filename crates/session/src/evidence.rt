ghost use Rattle.std.specs.Prelude.{◌≡◌, ◌≢◌, ◌≤◌, ◌<◌, ◌^◌, ◌↔◌, ◌⊎◌, IsTrue, IfSome, None, Some};
ghost use Rattle.lock_command.specs.declared.state.LockState.TheVariants as lock;
ghost use Rattle.lock_command.specs.declared.command.Command.{Command};
ghost use Rattle.lock_command.specs.State.{goal_of};
ghost use Rattle.lock_table.specs.declared.known_client.KnownClient.{KnownClient};
ghost use Rattle.session.specs.Evidence as evidence;
ghost use Rattle.session.specs.Places.{command_at, upto};
ghost use Rattle.session.specs.Evidence.{AsksFor, HasHeard, IsFirst, IsOf, IsRequest, Knows, Lacks, NoneBetween, Purges, Shows, ShowsWaiting};

use crate::claim::Claim;
use crate::learned::Learned;
use crate::numbers::client_of;
use lock_command::{
    Action, ClientNumber, Command, HostNumber, LockName, LockNumber, Mode, RequestNumber,
    ValueBytes, compatible,
};
use lock_table::{LockRecord, LockState, Picture};

/// How a table shows the claimed lock.
#[derive(Clone, Copy, Debug, PartialEq, Eq)]
pub enum Seen {
    Granted,
    /// It waits, or is being converted by somebody else.
    Waiting,
    Absent,
}

/// How the table shows the claimed lock.
pub fn find(table: &Picture, claim: &Claim) -> Seen
    ensures granted { result ≡ Seen.Granted → Shows table.now claim.now (lock.Granted claim.now.mode) }
    ensures waiting { result ≡ Seen.Waiting → ShowsWaiting table.now claim.now }
    ensures absent { result ≡ Seen.Absent → Lacks table.now claim.now }
{
    let locks = table.locks();
    for at in 0..locks.len() {
        if is_of(claim, &locks[at]) {
            return seen_in(&locks[at]);
        }
    }
    Seen::Absent
}

fn seen_in(found: &LockRecord) -> Seen
    ensures granted { result ≡ Seen.Granted → found.now.state ≡ lock.Granted (goal_of found.now.state) }
    ensures waiting { result ≡ Seen.Waiting → found.now.state ≢ lock.Granted (goal_of found.now.state) }
    ensures there { result ≡ Seen.Absent → ⊥ }
{
    match found.state {
        LockState::Granted(_) => Seen::Granted,
        LockState::Converting { .. } | LockState::Waiting(_) => Seen::Waiting,
    }
}

fn is_of(claim: &Claim, found: &LockRecord) -> bool
    ensures { IsTrue result ↔ IsOf claim.now found.now }
{
    claim.lock == found.lock
        && found.client == client_of(claim.host)
        && found.host == claim.host
        && found.name == claim.name
        && goal(&found.state) == claim.mode
}

/// What the lock holds, once it has what it wants.
fn goal(state: &LockState) -> Mode
    ensures { result ≡ goal_of state.now }
{
    match *state {
        LockState::Granted(mode) => mode,
        LockState::Converting { wanted, .. } | LockState::Waiting(wanted) => wanted,
    }
}

/// Whether a lock of this number is in the table.
pub fn is_numbered(table: &Picture, number: LockNumber) -> bool
    ensures { result ≡ evidence.is_numbered table.now number }
{
    table.locks().iter().any(|found| found.lock == number)
}

/// Whether a lock in this mode would have to wait.
pub fn is_taken(table: &Picture, name: LockName, mode: Mode) -> bool
    ensures { result ≡ evidence.is_taken table.now name mode }
{
    table
        .locks()
        .iter()
        .any(|found| found.name == name && holds_up(mode, &found.state))
}

fn holds_up(mode: Mode, state: &LockState) -> bool
    ensures { result ≡ evidence.holds_up mode state.now }
{
    match *state {
        LockState::Granted(held) => !compatible(held, mode),
        LockState::Converting { .. } | LockState::Waiting(_) => true,
    }
}

/// The client's last request, or 0.
pub fn last_request(table: &Picture, client: ClientNumber) -> u64
    ensures range { result ≤ 2 ^ 62 }
    ensures last { (known : KnownClient) → Knows table.now client known → known.request ≡ result }
    ensures none { (result ≡ 0) ⊎ ((known : KnownClient) × Knows table.now client known × (known.request ≡ result)) }
{
    let clients = table.clients();
    for at in 0..clients.len() {
        if clients[at].client == client {
            return clients[at].request.get();
        }
    }
    0
}

/// Whether the table knows this request of the client, or a later one.
pub fn has_heard(table: &Picture, client: ClientNumber, request: u64) -> bool
    ensures { IsTrue result ↔ HasHeard table.now client request }
{
    let clients = table.clients();
    for at in 0..clients.len() {
        if clients[at].client == client && request <= clients[at].request.get() {
            return true;
        }
    }
    false
}

/// The place of the first command from here on that is this request of the client. None, too, where not all commands from here on are known.
pub fn first_of(
    learned: &Learned<'_>,
    from: u64,
    client: ClientNumber,
    request: RequestNumber,
) -> Option<u64>
    ensures first { IfSome result (λ place. IsFirst learned.now from client request place) }
    ensures within { IfSome result (λ place. place < upto learned.now) }
    ensures none { result ≡ None → learned.now.first ≤ from → NoneBetween (IsRequest client request) learned.now from (upto learned.now) }
{
    if from < learned.first {
        return None;
    }
    for place in from..learned.upto() {
        if let Some(command) = learned.command(place) {
            if command.client == client && command.request == request {
                return Some(place);
            }
        }
    }
    None
}

/// Whether no command that is known between these places takes away the locks of the host.
pub fn is_spared(learned: &Learned<'_>, from: u64, to: u64, host: HostNumber) -> bool
    ensures { IsTrue result ↔ NoneBetween (Purges host) learned.now from to }
{
    for place in from..to {
        if let Some(command) = learned.command(place) {
            if purges(&command, host) {
                return false;
            }
        }
    }
    true
}

fn purges(command: &Command, host: HostNumber) -> bool
    ensures { IsTrue result ↔ Purges host command.now }
{
    match &command.action {
        Action::Purge(gone) | Action::QuietPurge(gone) => *gone == host,
        _ => false,
    }
}

/// Whether the command at this place is known, releases this lock, and stores this value.
pub fn releases_at(
    learned: &Learned<'_>,
    place: u64,
    lock: LockNumber,
    value: Option<ValueBytes>,
) -> bool
    ensures { IsTrue result ↔ ((command : Command) × (command_at learned.now place ≡ Some command) × (command.action ≡ Action.Release lock value)) }
{
    match learned.command(place) {
        Some(command) => releases(&command, lock, value),
        None => false,
    }
}

fn releases(command: &Command, lock: LockNumber, value: Option<ValueBytes>) -> bool
    ensures { IsTrue result ↔ (command.now.action ≡ Action.Release lock value) }
{
    match &command.action {
        Action::Release {
            lock: released,
            value: stored,
        } => *released == lock && *stored == value,
        _ => false,
    }
}

/// Whether the command at this place is known, and asks for this claim's lock.
pub fn asks_at(learned: &Learned<'_>, place: u64, claim: &Claim) -> bool
    ensures { IsTrue result ↔ ((command : Command) × (command_at learned.now place ≡ Some command) × AsksFor claim.now command) }
{
    match learned.command(place) {
        Some(command) => asks_for(&command, claim),
        None => false,
    }
}

fn asks_for(command: &Command, claim: &Claim) -> bool
    ensures { IsTrue result ↔ AsksFor claim.now command.now }
{
    match &command.action {
        Action::Enqueue {
            lock,
            name,
            mode,
            ..
        } => *lock == claim.lock && *name == claim.name && *mode == claim.mode,
        _ => false,
    }
}
