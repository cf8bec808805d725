// Where a refusal 1, 2, 3, 20, 21 or 22 lies in the tables, and the same in words.
#![tactic(auto)]

mod allowed;
pub mod convert;
mod declared;
pub mod fault;
pub mod find;
mod jump;
mod known;
mod look;
mod name;
mod program;
mod range;
mod row;
mod shape;
pub mod tell;
mod tell_convert;
mod tell_jump;
mod word;
