// The families of instructions, by number.
// Numbers and no enum: the word of a lent table may be any, and what is said of a row is said of every word.
pub const ARITHMETIC: u64 = 0;

pub const COMPARISON: u64 = 1;

pub const BINARY_LOGIC: u64 = 2;

pub const UNARY: u64 = 3;

pub const MOVE: u64 = 4;

pub const EXCHANGE: u64 = 5;

pub const LOAD: u64 = 6;

pub const STORE: u64 = 7;

pub const FRAME: u64 = 8;

pub const CALL: u64 = 9;

pub const OTHER: u64 = 10;

pub const JUMP: u64 = 11;

pub const JUMP_WHEN: u64 = 12;

pub const JUMP_UNLESS: u64 = 13;

pub const LABEL: u64 = 14;

pub const HALT: u64 = 15;

pub const CONVERT: u64 = 16;
