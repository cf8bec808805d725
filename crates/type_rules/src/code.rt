// 01's numbers in a type error, as specs/Numbers.antt names them: its kind, its codes, its spots.
// Numbers and no enum: they are words of what the C interface hands out, and the definitions hold them as the papers do.
pub const UNDEFINED: u64 = 1;

pub const DATA_TYPE: u64 = 2;

pub const REAL_REQUIRED: u64 = 3;

pub const OPERAND: u64 = 4;

// Codes beside the kinds and the literals'.
pub const IMAGINARY: u64 = 6;

pub const VARIABLE: u64 = 7;

pub const ABSENT: u64 = 8;

// What an operator requires.
pub const REAL_OR_INTEGRAL: u64 = 9;

pub const INTEGRAL: u64 = 10;

pub const BIT_ONLY: u64 = 11;

// The operand that an error names; NO_SPOT where it has no `src`.
pub const NO_SPOT: u64 = 0;

pub const FIRST: u64 = 1;

pub const SECOND: u64 = 2;

pub const SOURCE: u64 = 3;

// A frame's first node; the others follow in row order.
pub const NODE: u64 = 4;
