// What the console in a terminal works on: its state, lines and keys typed, a file read into tables, memory and journal, a row of the program.
#![tactic(auto)]

pub mod current;
pub mod input;
pub mod key;
pub mod load;
pub mod plant;
pub mod state;
pub mod trouble;
