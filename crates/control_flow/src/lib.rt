// Where a row leads, and refusal 21.
#![tactic(auto)]

pub mod condition;
pub mod next;
