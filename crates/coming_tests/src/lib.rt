//! Tests of hosts that come to epochs, and of searches for the newest: a crate with tests is proved twice, and this one has little to prove.
#![tactic(auto)]

#[cfg(test)]
mod comes;
#[cfg(test)]
mod driven;
#[cfg(test)]
mod finds;
