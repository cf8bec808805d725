// A CALL on the cells: the routine's reply is judged, and each of its rows gives a write. Nothing is written here.
#![tactic(auto)]

pub mod call;
pub mod reply;
