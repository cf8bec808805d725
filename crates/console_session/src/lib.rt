// The public calls of a session, on lent tables, memory and journal: no call asks anything of its caller, and each gives its answer and every lent word by one equation.
#![tactic(auto)]

pub mod back;
pub mod forward;
pub mod open;
pub mod run;
