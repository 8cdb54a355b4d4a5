//! A migration of a log onto new images, call by call: a machine that asks for device calls and hears their answers.
#![tactic(auto)]

mod block;
mod device_call;
mod end;
mod event;
mod law;
mod migrator;
mod notes;
mod run;
mod running;

pub use block::row_for;
pub use end::End;
pub use event::MigrationEvent;
pub use law::migrates_all_or_nothing;
pub use migrator::Migrator;
pub use run::migrate_run;
