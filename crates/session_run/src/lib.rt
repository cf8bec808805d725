// Run on the cells: forward by forward, on tables that were looked at once.
#![tactic(auto)]

pub mod run;
