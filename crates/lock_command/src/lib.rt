//! What the crates above say of locks: the six modes and which of them conflict, the records of locks and their queues, the commands of the lock table, the
//! replies to them, the one spelling in 48 bytes that each command has, and the names of signs of life.
#![tactic(auto)]

mod command;
mod held;
mod mode;
mod name;
mod number;
mod old;
mod reading;
mod record;
mod reply;
mod signs;
mod spelling;
mod state;
mod value;

pub use command::{Action, Command};
pub use held::Held;
pub use mode::{Mode, compatible, downward, writes_alone};
pub use name::LockName;
pub use number::{ClientNumber, HOSTS, HostNumber, LockNumber, RequestNumber};
pub use old::{
    OLD_COMMAND_LENGTH, OLD_HOSTS, OldAction, OldCommand, OldValue, decode_old, upgrade,
};
pub use reading::decode;
pub use record::{LOCKS, LockRecord};
pub use reply::{Answer, LockValue, Refusal, Reply, is_same_reply};
pub use signs::{sign_name, signs_are_of_one_lock};
pub use spelling::{COMMAND_LENGTH, Value};
pub use state::LockState;
pub use value::{LOCK_VALUE_LENGTH, ValueBytes};
