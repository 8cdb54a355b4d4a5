//! A host over a folder of images of a log without an end whose device calls C makes: what C asks of it, and what C is told, in structs of numbers and bytes.
#![tactic(auto)]

mod answer;
mod call;
mod fault;
mod images;
mod law;
mod open_epochs;
mod showing;
mod view;

pub use answer::PlacedAnswer;
pub use call::WrittenBlock;
pub use fault::{NO_TABLE, ShowFault};
pub use law::{calls_make_tasks, ends_are_told};
pub use open_epochs::OpenEpochs;
pub use view::EpochsView;
