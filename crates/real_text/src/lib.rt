// REAL words as decimal text, and short decimals as REAL words.
#![tactic(auto)]

pub mod decimal;
pub mod digits;
mod limbs;
pub mod text;
