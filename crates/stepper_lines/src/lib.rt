// What the console writes of values, rows and refusals, as text for any terminal or pipe.
#![tactic(auto)]

pub mod help;
pub mod line;
pub mod page;
pub mod print;
pub mod program;
pub mod quil;
pub mod refusal;
pub mod type_error;
pub mod view;
