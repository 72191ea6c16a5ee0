// Authority: what a capability allows. Kinds of authority meet, and what is derived is a meet.
#![tactic(auto)]

pub mod bounds;
pub mod capability;
pub mod image;
pub mod meet;
pub mod numbers;
pub mod permission;
pub mod permissions;
