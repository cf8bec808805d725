// Labels: where a label's row is, and refusal 20.
#![tactic(auto)]

pub mod chains;
pub mod labels;
