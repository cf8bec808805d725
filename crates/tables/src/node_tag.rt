// The tags of nodes, by number.
// Numbers and no enum: the word of a lent table may be any, and what is said of a row is said of every word.
pub const ADDRESS: u64 = 0;

pub const FUNCTION_CALL: u64 = 1;

pub const INFIX: u64 = 2;

pub const NUMBER: u64 = 3;

pub const PI: u64 = 4;

pub const PREFIX: u64 = 5;

pub const VARIABLE: u64 = 6;
