// Each family's operators, by number.
// Numbers and no enum: the word of a lent table may be any, and what is said of a row is said of every word.

// Arithmetic.
pub const ADD: u64 = 0;

pub const SUBTRACT: u64 = 1;

pub const DIVIDE: u64 = 2;

pub const MULTIPLY: u64 = 3;

// Comparison.
pub const EQUAL: u64 = 0;

pub const GREATER_THAN_OR_EQUAL: u64 = 1;

pub const GREATER_THAN: u64 = 2;

pub const LESS_THAN_OR_EQUAL: u64 = 3;

pub const LESS_THAN: u64 = 4;

// Binary logic.
pub const AND: u64 = 0;

pub const IOR: u64 = 1;

pub const XOR: u64 = 2;

pub const SHL: u64 = 3;

pub const SHR: u64 = 4;

pub const ASHR: u64 = 5;

// Unary.
pub const NEG: u64 = 0;

pub const NOT: u64 = 1;

// Frame.
pub const SET_FREQUENCY: u64 = 0;

pub const SET_PHASE: u64 = 1;

pub const SET_SCALE: u64 = 2;

pub const SHIFT_FREQUENCY: u64 = 3;

pub const SHIFT_PHASE: u64 = 4;

// Family 10.
pub const NOP: u64 = 0;

pub const ANY_OTHER: u64 = 1;
