// One argument of a CALL (quil-rs instruction/extern_call.rs): resolved against its parameter or the return, or its error.
#![tactic(auto)]

pub mod argument;
pub mod error;
pub mod resolve;
pub mod resolved;
pub mod vector;
