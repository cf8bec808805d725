// The calls of console_c as C finds them: each is the library's function of that name, with its clauses.
#![tactic(auto)]

pub mod access;
pub mod back;
pub mod check;
pub mod forward;
pub mod frame;
pub mod journal_length;
pub mod open;
pub mod reference;
pub mod references;
pub mod resolve;
pub mod run;
