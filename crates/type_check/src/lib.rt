// The type check (quil-rs program/type_check.rs): a frame's nodes, and the first bad row of a program, by type_rules.
#![tactic(auto)]

pub mod frame;
pub mod program;
