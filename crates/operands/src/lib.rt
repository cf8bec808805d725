// A row's operands: where they lie, and what is read from cells and literals.
#![tactic(auto)]

pub mod address;
pub mod cell;
pub mod names;
