// The words of the text files: lists of words, names, headings, and what stands at each place of a row.
#![tactic(auto)]

pub mod heading;
pub mod list;
pub mod names;
pub mod place;
pub mod vocabulary;
