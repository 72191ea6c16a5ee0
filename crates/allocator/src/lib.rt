// Allocators of granules, and quotas over them.
#![tactic(auto)]

pub mod allocator;
pub mod cell;
pub mod fault;
pub mod numbered;
pub mod quota;
