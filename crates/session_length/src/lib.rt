// How long a journal to buy: what is counted for a row and a program, and the public call.
#![tactic(auto)]

pub mod entries;
pub mod length;
