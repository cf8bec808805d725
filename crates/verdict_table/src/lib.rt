// The wall chart of verdicts: what the type check says of each form of a row, as one constant table.
#![tactic(auto)]

pub mod blocks;
pub mod counts;
pub mod table;
