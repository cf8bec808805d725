// The loader's looks at the tables, in their order: refusals 1, 2 (the words by word_rules) and 3.
#![tactic(auto)]

pub mod expression;
pub mod load;
pub mod shape;
