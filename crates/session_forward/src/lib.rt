// Forward on the cells: the row at a position, and its writes with their entries.
#![tactic(auto)]

pub mod call_step;
pub mod plain_step;
pub mod step;
