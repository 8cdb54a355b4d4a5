ghost use Rattle.std.specs.Prelude.{◌≡◌, ◌+◌, ◌*◌, ◌%◌, true, IfSome, Some, if◌then◌else◌};
ghost use Rattle.lock_command.specs.Command.{is_submittable};

use crate::digest::Digest;
use crate::failure::Failure;
use crate::numbers::Numbers;
use lock_command::{
    Action, Answer, ClientNumber, Command, HOSTS, HostNumber, LockName, LockNumber, Mode, Refusal,
    Reply, RequestNumber, ValueBytes,
};
use lock_table::Table;
use std::alloc::Global;

/// The client of host 0's sessions. Each host has one.
const FIRST_CLIENT: u8 = 240;

/// The first lock number of host 0's sessions.
const FIRST_LOCK: u16 = 1536;

/// How many lock numbers the sessions of a host have.
const LOCKS_OF_A_HOST: u16 = 4000;

/// Half of them are even, and half of them are odd.
const NUMBERS: u64 = 2000;

/// How many lock numbers a session tries.
const MOST_TRIES: u32 = 64;

/// A lock that a session has asked for, and has or waits for.
#[derive(Clone, Copy)]
pub struct Asked {
    pub host: HostNumber,
    pub lock: LockNumber,
}

/// How a lock is asked for.
#[derive(Clone, Copy)]
pub struct Wish {
    pub name: LockName,
    pub mode: Mode,
    pub no_queue: bool,
}

/// Sessions of all hosts over one table. They choose the numbers of requests and locks as sessions of the C library do.
#[derive(Drop)]
pub struct Sessions {
    table: Table,
    /// Whether host numbers are shared, as `mg-lock` shares them.
    shared: bool,
    /// The last request of each host's client.
    requests: [u64; HOSTS],
    last: Option<Command>,
    digest: Digest,
}

impl Sessions {
    /// Sessions that have asked for nothing yet. What comes of them is added to the digest.
    pub fn new(
        alloc: Global,
        shared: bool,
        numbers: &mut Numbers,
        digest: Digest,
    ) -> Result<Sessions, Failure> {
        let mut requests = [0; HOSTS];
        for request in &mut requests {
            *request = numbers.next() % NUMBERS;
        }
        Ok(Sessions {
            table: Table::new(alloc)?,
            shared,
            requests,
            last: None,
            digest,
        })
    }

    /// Asks for a lock, which is granted, or waits.
    pub fn take(&mut self, host: HostNumber, wish: &Wish) -> Result<Asked, Failure> {
        for _ in 0..MOST_TRIES {
            let request = self.request_to_take(host, wish.no_queue);
            let Some(lock) = lock_of(host, request, self.shared) else {
                return Err(Failure::Wrong);
            };
            match self.enqueue(host, request, lock, wish)? {
                Answer::Granted | Answer::Queued => return Ok(Asked { host, lock }),
                // Another lock has the number: the next one is tried.
                Answer::Refused(Refusal::LockInUse) => {}
                _ => return Err(Failure::Wrong),
            }
        }
        Err(Failure::Wrong)
    }

    fn enqueue(
        &mut self,
        host: HostNumber,
        request: u64,
        lock: LockNumber,
        wish: &Wish,
    ) -> Result<Answer, Failure> {
        let action = Action::Enqueue {
            lock,
            name: wish.name,
            mode: wish.mode,
            no_queue: wish.no_queue,
        };
        Ok(self.ask(host, request, action)?.answer)
    }

    /// Gives a lock back, or gives up waiting for it.
    pub fn give(&mut self, asked: &Asked, value: Option<ValueBytes>) -> Result<(), Failure> {
        let lock = asked.lock;
        self.ask_next(asked.host, Action::Release { lock, value })
    }

    /// Converts a lock to another mode, and waits if that is not granted.
    pub fn convert(
        &mut self,
        asked: &Asked,
        mode: Mode,
        value: Option<ValueBytes>,
    ) -> Result<(), Failure> {
        self.ask_next(
            asked.host,
            Action::Convert {
                lock: asked.lock,
                mode,
                no_queue: false,
                value,
            },
        )
    }

    /// Asks for the state of a lock.
    pub fn status(&mut self, asked: &Asked) -> Result<(), Failure> {
        self.ask_next(asked.host, Action::Status(asked.lock))
    }

    /// The last command comes once more, as one whose answer did not come is asked again.
    pub fn repeat(&mut self) {
        if let Some(command) = self.last {
            let reply = self.table.apply(&command);
            self.digest.add_reply(&reply);
        }
    }

    /// The digest of all replies, and of the table at the end.
    pub fn end(mut self, alloc: Global) -> Result<Digest, Failure> {
        let picture = self.table.picture(alloc)?;
        self.digest.add_picture(&picture);
        Ok(self.digest)
    }

    fn ask_next(&mut self, host: HostNumber, action: Action) -> Result<(), Failure> {
        let request = self.next_request(host);
        self.ask(host, request, action)?;
        Ok(())
    }

    fn ask(&mut self, host: HostNumber, request: u64, action: Action) -> Result<Reply, Failure> {
        let Some(command) = command_of(host, request, action) else {
            return Err(Failure::Wrong);
        };
        self.last = Some(command);
        let reply = self.table.apply(&command);
        self.digest.add_reply(&reply);
        Ok(reply)
    }

    fn next_request(&mut self, host: HostNumber) -> u64 {
        let at = usize::from(host.get());
        self.requests[at] = self.requests[at].saturating_add(1);
        self.requests[at]
    }

    /// The number of a request that may wait is even, of one that may not odd.
    fn request_to_take(&mut self, host: HostNumber, no_queue: bool) -> u64 {
        let request = self.next_request(host);
        if request % 2 == u64::from(no_queue) {
            request
        } else {
            self.next_request(host)
        }
    }
}

/// A command of the host's sessions.
fn command_of(host: HostNumber, request: u64, action: Action) -> Option<Command>
    ensures host { IfSome result (λ command. command.host ≡ host) }
    ensures client { IfSome result (λ command. command.client ≡ FIRST_CLIENT + host) }
    ensures asked { IfSome result (λ command. is_submittable command ≡ true) }
{
    // This does nothing when it runs: without it the checker does not load the types inside an action.
    let _no_value: Option<ValueBytes> = None;
    let command = Command {
        host,
        client: ClientNumber::new(FIRST_CLIENT + host.get()),
        request: RequestNumber::new(request)?,
        action,
    };
    command.is_submittable().then_some(command)
}

/// The lock number that a session chooses with a request. It is odd where the host number is shared.
fn lock_of(host: HostNumber, request: u64, shared: bool) -> Option<LockNumber>
    ensures { result ≡ Some (FIRST_LOCK + LOCKS_OF_A_HOST * host + 2 * (request % NUMBERS) + (if shared then 1 else 0)) }
{
    let first = FIRST_LOCK + LOCKS_OF_A_HOST * u16::from(host.get());
    let even = first + 2 * (request % NUMBERS) as u16;
    LockNumber::new(even + u16::from(shared))
}
