//! Areas of disks that are used again and again, each time for a log of its own: what is done in each epoch is a run of the world.
#![tactic(auto)]

mod law;

pub use law::{
    areas_serve, areas_show_images, calls_serve, epochs_are_runs, numbers_are_bytes, pasts_serve,
};
