//! Hosts over disks whose syncs come late, because several are under way together or one was given up: what holds of syncs that take effect at one moment holds of these.
#![tactic(auto)]

mod law;

pub use law::{
    late_devices_have_one_log, late_devices_serve, late_syncs_have_one_log, late_syncs_serve,
};
