//! What C asks of claims and of cleanups, and what C is told, in structs of numbers and bytes: over hosts of logs that end, and over hosts of logs without
//! an end.
#![tactic(auto)]

mod asker;
mod beginning;
mod cleanups;
mod due_order;
pub mod ending;
pub mod epochs;
mod event;
mod failures;
mod hearing;
mod marking;
mod orders;
mod signs;
mod view;

pub use asker::AskerNumbers;
pub use beginning::{ValueNumbers, begin, left, stop, take};
pub use cleanups::{CleanupNumbers, settle};
pub use due_order::DueOrder;
pub use hearing::hear_alone;
pub use marking::is_waited_for;
pub use signs::name_sign;
pub use view::ClaimView;
