//! Tests of folders of images: a crate with tests is proved twice, and this one has little to prove.
#![tactic(auto)]

#[cfg(test)]
mod checks;
#[cfg(test)]
mod hosts;
