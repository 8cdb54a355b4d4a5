ghost use Rattle.std.specs.Prelude.{◌≡◌, true, IfSome};
ghost use Rattle.lock_command.specs.Command.{is_submittable};

use crate::names::name_of;
use crate::numbers::Numbers;
use lock_command::{
    Action, Answer, ClientNumber, Command, HostNumber, LockName, LockNumber, Mode, Refusal, Reply,
    RequestNumber, ValueBytes,
};

/// How many locks clients use: as many as a table takes.
const LOCKS: usize = 256;

/// How many clients there are: as many as a table knows. Each uses eight locks.
const CLIENTS: usize = 32;

/// The modes, the common ones more than once.
const MODES: [Mode; 8] = [
    Mode::Null,
    Mode::ConcurrentRead,
    Mode::ConcurrentRead,
    Mode::ConcurrentWrite,
    Mode::ProtectedRead,
    Mode::ProtectedWrite,
    Mode::Exclusive,
    Mode::Exclusive,
];

/// Commands of many clients, one after the other: they enqueue locks, convert them, ask for their state, give values and release them. Now and then a host's locks
/// are purged, or a command comes again.
#[derive(Clone, Copy)]
pub struct Commands {
    numbers: Numbers,
    requests: [u64; CLIENTS],
    /// Which locks stand in the table, as far as replies told.
    stands: [bool; LOCKS],
    /// How many names there are, from 1 on.
    names: u64,
    last: usize,
}

impl Commands {
    pub fn new(numbers: Numbers, names: u64) -> Commands {
        Commands {
            numbers,
            requests: [0; CLIENTS],
            stands: [false; LOCKS],
            names: names.max(1),
            last: 0,
        }
    }

    /// The next command, through this host.
    pub fn next(&mut self, host: HostNumber) -> Option<Command>
        ensures host { IfSome result (λ command. command.host ≡ host) }
        ensures asked { IfSome result (λ command. is_submittable command ≡ true) }
    {
        let drawn = self.numbers.next();
        let at = (drawn >> 32) as usize % LOCKS;
        let client = at / 8 % CLIENTS;
        self.last = at;
        // One command in a hundred is a request once more.
        if drawn % 100 != 99 || self.requests[client] == 0 {
            self.requests[client] = self.requests[client].saturating_add(1);
        }
        let lock = LockNumber::new((at as u16).checked_add(1)?)?;
        // This does nothing when it runs: without it the checker does not load the types inside an action.
        let _no_value: Option<ValueBytes> = None;
        let action = if drawn % 1000 == 0 {
            Action::Purge(host)
        } else if self.stands[at] {
            self.change(lock, drawn)
        } else {
            self.enqueue(lock, drawn)?
        };
        let command = Command {
            host,
            client: ClientNumber::new(client as u8),
            request: RequestNumber::new(self.requests[client])?,
            action,
        };
        command.is_submittable().then_some(command)
    }

    fn enqueue(&mut self, lock: LockNumber, drawn: u64) -> Option<Action> {
        Some(Action::Enqueue {
            lock,
            name: self.name(drawn)?,
            mode: mode_of(drawn >> 8),
            no_queue: drawn % 16 == 1,
        })
    }

    fn change(&mut self, lock: LockNumber, drawn: u64) -> Action {
        let kind = (drawn >> 12) % 16;
        if kind < 6 {
            Action::Convert {
                lock,
                mode: mode_of(drawn >> 8),
                no_queue: drawn % 16 == 1,
                value: self.value(drawn),
            }
        } else if kind < 14 {
            Action::Release {
                lock,
                value: self.value(drawn),
            }
        } else if kind == 14 {
            Action::Status(lock)
        } else {
            Action::Cancel(lock)
        }
    }

    /// One value in four is given.
    fn value(&mut self, drawn: u64) -> Option<ValueBytes> {
        if (drawn >> 16) % 4 == 0 {
            Some(value_of(self.numbers.next()))
        } else {
            None
        }
    }

    fn name(&self, drawn: u64) -> Option<LockName> {
        name_of((drawn >> 20).checked_rem(self.names)?)
    }

    /// The last command is taken to have been granted, where nobody tells.
    pub fn assume(&mut self, command: &Command) {
        let at = self.last % LOCKS;
        match command.action {
            Action::Enqueue { .. } => self.stands[at] = true,
            Action::Release { .. } => self.stands[at] = false,
            _ => {}
        }
    }

    /// What came of the last command.
    pub fn hear(&mut self, command: &Command, reply: &Reply) {
        let at = self.last % LOCKS;
        if let Answer::Refused(refusal) = reply.answer {
            self.stands[at] = refusal == Refusal::LockInUse;
        } else if is_enqueue(command) {
            self.stands[at] = true;
        } else if reply.answer == Answer::Released {
            self.stands[at] = false;
        }
    }
}

fn is_enqueue(command: &Command) -> bool {
    matches!(command.action, Action::Enqueue { .. })
}

fn mode_of(drawn: u64) -> Mode {
    MODES[(drawn % 8) as usize]
}

/// A value that begins with this number.
pub fn value_of(number: u64) -> ValueBytes {
    let mut bytes = [0; 16];
    bytes[..8].copy_from_slice(&number.to_be_bytes());
    ValueBytes::new(bytes)
}
