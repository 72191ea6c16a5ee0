// Scripts on a machine: each line is read and performed, and what it comes to is kept.
#![tactic(auto)]

pub mod fault;
pub mod numbered;
pub mod outcome;
pub mod run;
