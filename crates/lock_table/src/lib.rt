//! The lock table: who holds which mode of which name, who waits for it, and the reply to each client's last request.
#![tactic(auto)]

mod carry_over;
mod clients;
mod indexed_table;
mod known_client;
mod laws;
mod locks;
mod no_memory;
mod picture;
mod reply;
mod table;
mod valued;
mod values;

pub use clients::CLIENTS;
pub use known_client::KnownClient;
pub use laws::{
    a_table_has_one_picture, carried_tables_are_the_same, downward_conversions_are_granted,
    heads_could_not_be_granted, held_modes_are_compatible, left_out_clients_are_forgotten,
    lock_numbers_are_distinct, moved_logs_give_the_same, old_requests_change_nothing,
    requests_count_once, settling_is_complete, values_are_stored_last,
};
pub use lock_command::{
    Answer, LOCKS, LockRecord, LockState, LockValue, Refusal, Reply, is_same_reply,
};
pub use no_memory::NoMemory;
pub use picture::Picture;
pub use table::Table;
