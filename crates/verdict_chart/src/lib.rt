// The wall chart of verdicts as text and as a page, and the report of its counts.
#![tactic(auto)]

pub mod forms;
pub mod label;
pub mod layout;
pub mod page;
pub mod report;
pub mod style;
pub mod text;
