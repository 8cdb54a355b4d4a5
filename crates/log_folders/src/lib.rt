//! Folders of either kind of log: how they are made, opened and checked.
#![tactic(auto)]

mod any_image;
mod any_set;
mod area;
mod check;
mod endless_folder;
mod format;
mod inside;
mod law;
mod layout;
mod log_folder;
mod new_set;
mod print_area;
mod unfinished;

pub use any_image::{any_header, open_any_image, open_cut_to_any_header, used_header};
pub use any_set::{AnySet, first_epochs, set_of_any};
pub use area::{Area, Part};
pub use check::{check_endless, print_endless_damage};
pub use endless_folder::EndlessFolder;
pub use format::format_log;
pub use law::laid_out_images_are_new;
pub use layout::{lay_out, put_zeros};
pub use log_folder::{LogFolder, open_log};
pub use new_set::NewSet;
pub use unfinished::finish;
