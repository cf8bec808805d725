// Texts of numbers and signs, for the programs that read one.
#![tactic(auto)]

pub mod descriptor;
pub mod fill;
pub mod line;
pub mod number;
pub mod token;
