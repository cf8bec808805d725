// The shapes of parameters, by number; and an extern's return kind where it has no return.
// Numbers and no enum: the word of a lent table may be any, and what is said of a row is said of every word.
pub const SCALAR: u64 = 0;

pub const FIXED_VECTOR: u64 = 1;

pub const VARIABLE_VECTOR: u64 = 2;

pub const NO_RETURN: u64 = 4;
