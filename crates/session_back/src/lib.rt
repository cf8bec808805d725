// Back on the cells: the looks at the journal, and the last step's entries restored.
#![tactic(auto)]

pub mod take_back;
