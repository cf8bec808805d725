// The forms of an instruction's source, by number.
// Numbers and no enum: the word of a lent table may be any, and what is said of a row is said of every word.
pub const INTEGER_LITERAL: u64 = 0;

pub const REAL_LITERAL: u64 = 1;

pub const REFERENCE: u64 = 2;

pub const NONE: u64 = 3;
