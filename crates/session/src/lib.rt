// A session on lent memory and journal: the looks that its calls share, and what they answer.
#![tactic(auto)]

pub mod answer;
pub mod position;
pub mod prepare;
