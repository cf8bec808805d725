// The public calls for C, as console.h declares them and console_c_c exports them. Each returns 0 or the refusal's number, and writes an out-array only where the header says so.
#![tactic(auto)]

pub mod access;
pub mod back;
pub mod check;
pub mod forward;
pub mod frame;
pub mod journal_length;
pub mod open;
pub mod reference;
pub mod references;
pub mod resolve;
pub mod run;
