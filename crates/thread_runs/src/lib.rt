//! Clusters that real threads run: that commands, disks and faults go on side by side.
#![tactic(auto)]

#[cfg(test)]
mod pair_disk;
#[cfg(test)]
mod tests;
