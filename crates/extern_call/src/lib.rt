// A CALL's arguments (quil-rs instruction/extern_call.rs): resolved against the extern's signature, or the errors of those that do not resolve.
#![tactic(auto)]

pub mod call;
pub mod rows;
