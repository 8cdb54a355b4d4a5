//! What a host of all epochs does since its start, and what it may do next by that.
#![tactic(auto)]
