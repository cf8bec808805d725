// The words in which the C forms take and give a position, a type error and why a run stopped.
#![tactic(auto)]

pub mod error;
pub mod position;
pub mod ran;
