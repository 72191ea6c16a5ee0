// The machine: compartments with registers of capabilities over any tagged memory and any allocator.
#![tactic(auto)]

pub mod calls;
mod checks;
pub mod compartment;
pub mod compartment_machine;
pub mod fault;
pub mod machine;
pub mod numbered;
mod operand;
pub mod registers;
mod slot;
