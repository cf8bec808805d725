// Refusal 2: which words a row of each table may have.
#![tactic(auto)]

pub mod allowed;
pub mod children;
pub mod instruction;
pub mod nodes;
