//! The words of a line of `mg` that are about a folder or a script: the forms that a line may have, what a line asks for, and which word of a wrong one is bad. And what it prints for programs: one object each.
#![tactic(auto)]

mod fault;
mod form;
mod keyword;
mod line;
mod object;
mod request;
mod results;
mod slot;
mod told;
mod wrong_text;

pub use fault::WordFault;
pub use form::Form;
pub use keyword::Keyword;
pub use object::{Member, Value, object_of};
pub use request::{Request, request_of};
pub use results::{
    already_endless, checked, created, made_endless, marked, replaced, submitted, tabled,
};
pub use slot::Slot;
pub use told::{AckTold, MarksTold, TableTold, ack_in, marks_in, table_in};
pub use wrong_text::{WrongText, shown};
