// The six tables from a text: docs/FORMAT.md says how it is written.
#![tactic(auto)]

pub mod file;
pub mod held;
pub mod row;
pub mod word;
