// The forms of arguments, by number.
// Numbers and no enum: the word of a lent table may be any, and what is said of a row is said of every word.
pub const IDENTIFIER: u64 = 0;

pub const REFERENCE: u64 = 1;

pub const IMMEDIATE: u64 = 2;
