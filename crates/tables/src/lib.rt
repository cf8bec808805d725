// The six tables, as lent slices of words: rows and their fields, the names of their numbers, lookup by name, trees of nodes, and refusal 10; the
// numbers of all refusals.
#![tactic(auto)]

pub mod argument_form;
pub mod cells;
pub mod ends;
pub mod family;
pub mod lookup;
pub mod node_tag;
pub mod operator;
pub mod parameter_shape;
pub mod refusal;
pub mod rows;
pub mod source;
pub mod tree;
