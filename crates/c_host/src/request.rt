ghost use Rattle.std.specs.Prelude.{◌≡◌, ◌<◌, ◌^◌, ℕ, List, Bool, Option, None, IfSome};
ghost use Rattle.std.specs.Option.{SomeIff};
ghost use Rattle.lock_command.specs.declared.command.Command.{Command};
ghost use Rattle.lock_command.specs.declared.command.Action.{Action};
ghost use Rattle.c_host.specs.Requests.{AsksFor, AsksValue, IsAsked, flag_number};
ghost use Rattle.lock_command.specs.Command.{Fits, FitsAction, IsLock, IsValue};
ghost use Rattle.lock_command.specs.declared.number.TheConstants.{HOSTS};

use crate::mode_number::mode_of;
use lock_command::{
    Action, ClientNumber, Command, HostNumber, LOCK_VALUE_LENGTH, LockName, LockNumber,
    RequestNumber, ValueBytes,
};

/// What a client asks, as C hands it over. A field that the action does not read may have any value.
#[repr(C)]
#[derive(Clone, Copy, Drop)]
pub struct Request {
    pub request: u64,
    pub client: u32,
    /// 1 enqueue, 2 convert, 3 release, 4 cancel, 5 status, 6 purge, 7 forget.
    pub action: u32,
    pub lock: u32,
    pub mode: u32,
    /// 0, or 1: refused in place of queued.
    pub no_queue: u32,
    /// The host whose locks are purged.
    pub purged: u32,
    /// 1 where a convert or a release gives a value, else 0.
    pub gives: u32,
    /// The client that is forgotten.
    pub forgotten: u32,
    pub value: [u8; LOCK_VALUE_LENGTH],
}

impl Request {
    /// The command of this host that is asked, if it is one.
    pub fn command(&self, host: HostNumber, name: &[u8]) -> Option<Command>
        ensures asked { IfSome result (IsAsked self.now name.now host) }
        ensures none { result ≡ None → (command : Command) → Fits command → IsAsked self.now name.now host command → ⊥ }
    {
        Some(Command {
            host,
            client: client_of(self.client)?,
            request: RequestNumber::new(self.request)?,
            action: self.action(name)?,
        })
    }

    fn action(&self, name: &[u8]) -> Option<Action>
        ensures asked { IfSome result (AsksFor self.now name.now) }
        ensures none { result ≡ None → (action : Action) → FitsAction action → AsksFor self.now name.now action → ⊥ }
    {
        match self.action {
            1 => self.enqueue(name),
            2 => self.convert(name),
            3 => self.release(name),
            4 => Some(Action::Cancel(lock_of(self.lock)?)),
            5 => Some(Action::Status(lock_of(self.lock)?)),
            6 => Some(Action::Purge(host_of(self.purged)?)),
            7 => Some(Action::Forget(client_of(self.forgotten)?)),
            _ => None,
        }
    }

    fn enqueue(&self, name: &[u8]) -> Option<Action>
        requires { self.now.action ≡ 1 }
        ensures asked { IfSome result (AsksFor self.now name.now) }
        ensures none { result ≡ None → (action : Action) → FitsAction action → AsksFor self.now name.now action → ⊥ }
    {
        Some(Action::Enqueue {
            lock: lock_of(self.lock)?,
            name: LockName::new(name)?,
            mode: mode_of(self.mode)?,
            no_queue: self.no_queue()?,
        })
    }

    fn convert(&self, name: &[u8]) -> Option<Action>
        requires { self.now.action ≡ 2 }
        ensures asked { IfSome result (AsksFor self.now name.now) }
        ensures none { result ≡ None → (action : Action) → FitsAction action → AsksFor self.now name.now action → ⊥ }
    {
        Some(Action::Convert {
            lock: lock_of(self.lock)?,
            mode: mode_of(self.mode)?,
            no_queue: self.no_queue()?,
            value: self.value()?,
        })
    }

    fn release(&self, name: &[u8]) -> Option<Action>
        requires { self.now.action ≡ 3 }
        ensures asked { IfSome result (AsksFor self.now name.now) }
        ensures none { result ≡ None → (action : Action) → FitsAction action → AsksFor self.now name.now action → ⊥ }
    {
        Some(Action::Release {
            lock: lock_of(self.lock)?,
            value: self.value()?,
        })
    }

    fn no_queue(&self) -> Option<bool>
        ensures asked { IfSome result (λ flag. flag_number flag ≡ self.now.no_queue) }
        ensures none { result ≡ None → (flag : Bool) → flag_number flag ≡ self.now.no_queue → ⊥ }
    {
        match self.no_queue {
            0 => Some(false),
            1 => Some(true),
            _ => None,
        }
    }

    // The value that is given, if any is.
    fn value(&self) -> Option<Option<ValueBytes>>
        ensures asked { IfSome result (AsksValue self.now) }
        ensures none { result ≡ None → (value : Option (List ℕ)) → IsValue value → AsksValue self.now value → ⊥ }
    {
        match self.gives {
            0 => Some(None),
            1 => Some(Some(ValueBytes::new(self.value))),
            _ => None,
        }
    }
}

/// The host with this number, if there is one.
pub fn host_of(number: u32) -> Option<HostNumber>
    ensures { SomeIff result (number < HOSTS) number }
{
    HostNumber::new(u8::try_from(number).ok()?)
}

/// The client with this number, if there is one.
fn client_of(number: u32) -> Option<ClientNumber>
    ensures { SomeIff result (number < 2 ^ 8) number }
{
    Some(ClientNumber::new(u8::try_from(number).ok()?))
}

/// The lock with this number, if it may have that.
pub fn lock_of(number: u32) -> Option<LockNumber>
    ensures { SomeIff result (IsLock number) number }
{
    LockNumber::new(u16::try_from(number).ok()?)
}
