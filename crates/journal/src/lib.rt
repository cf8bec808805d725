// The journal under a session: cell writes with the entries that take them back, and the position. It knows nothing of what a step does.
#![tactic(auto)]

pub mod cells;
pub mod entries;
pub mod position;
pub mod restore;
