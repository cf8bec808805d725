// The public calls on lent tables alone: no call asks anything of its caller, and each gives its answer and every lent word by one equation.
#![tactic(auto)]

pub mod access;
pub mod check;
pub mod frame;
pub mod references;
pub mod resolve;
