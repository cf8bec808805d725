// The typing rules of a row that is no frame (quil-rs program/type_check.rs), family by family, and the four type errors, a frame's too.
#![tactic(auto)]

pub mod code;
pub mod error;
pub mod rules;
