// Tagged memory: bytes, and a tag for each granule of 16 bytes.
#![tactic(auto)]

pub mod fault;
pub mod flat;
pub mod granule;
pub mod numbered;
pub mod tagged_memory;
