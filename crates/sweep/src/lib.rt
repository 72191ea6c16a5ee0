// The revocation sweep over any tagged memory and any allocator.
#![tactic(auto)]

pub mod ending;
pub mod pass;
