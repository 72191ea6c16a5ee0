// The reader: from the bytes of a script to its calls, line by line.
#![tactic(auto)]

pub mod letters;
pub mod line;
pub mod number;
pub mod place;
pub mod script;
pub mod verb;
pub mod word;
