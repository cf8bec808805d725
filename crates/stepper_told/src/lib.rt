// What is told beside the screen: errors, where tables are at fault, a CALL's arguments; and the reply to a CALL.
#![tactic(auto)]

pub mod errors;
pub mod refused;
pub mod reply;
pub mod resolved;
