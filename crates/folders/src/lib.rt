//! Folders of image files: how one is found, made, opened, locked and checked for damage.
#![tactic(auto)]

mod check;
mod fault;
mod find;
mod folder;
mod format;
mod header;
mod host_lock;
mod image;
mod image_fault;
mod layout;
mod set;
mod unfinished;

pub use check::{Blocks, CheckFault, Finding, check_folder, print_damage};
pub use fault::FolderFault;
pub use find::find_folder;
pub use folder::{Folder, open_folder, open_folder_to_read, open_images};
pub use format::{format_folder, new_device, refuse_taken, sync_folder};
pub use header::{image_header, length_in_header};
pub use host_lock::{LockFault, TryLock, lock_host, lock_path};
pub use image::{Access, first_bytes, image_path, open_cut_to_header};
pub use image_fault::{image_fault_name, image_fault_number};
pub use layout::{LayFault, lay_out, put_zeros};
pub use set::{ImageSet, SetFault, set_of};
pub use unfinished::{Left, finish};
