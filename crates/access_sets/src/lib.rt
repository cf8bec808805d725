// The names that a CALL reads and those that it writes: quil-rs's `default_memory_accesses`.
#![tactic(auto)]

pub mod access;
