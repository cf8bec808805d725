// What the console shows: the screen, with the rows, the regions, their cells and what the last step changed; how long a journal is enough; the names that a row reaches; the tables as words.
#![tactic(auto)]

pub mod cells;
pub mod changes;
pub mod enough;
pub mod named;
pub mod regions;
pub mod screen;
pub mod sets;
pub mod table_words;
