// Open on the cells: the looks at the program, then the cells zeroed.
#![tactic(auto)]

pub mod open;
pub mod program;
pub mod verdict;
pub mod zero;
