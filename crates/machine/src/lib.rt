// One row on the cells, of a row that is no CALL: a refusal, or the writes to make. Nothing is written here.
#![tactic(auto)]

pub mod family;
pub mod outcome;
