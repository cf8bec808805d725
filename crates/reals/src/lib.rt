// REAL cells: operators on words that are binary64 patterns.
#![tactic(auto)]

pub mod real;
