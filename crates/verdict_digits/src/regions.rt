// Twelve regions: of each operand one name that is not declared, then one of each kind.
use words::kind::{BIT, INTEGER, OCTET, REAL};

// The name of each operand that is not declared; those of the kinds follow it.
pub const FIRST: u64 = 0;

pub const SECOND: u64 = 5;

pub const SOURCE: u64 = 10;

pub const REGIONS: [u64; 36] = [
    1, BIT, 1, 2, INTEGER, 1, 3, OCTET, 1, 4, REAL, 1, 6, BIT, 1, 7, INTEGER, 1, 8, OCTET, 1, 9,
    REAL, 1, 11, BIT, 1, 12, INTEGER, 1, 13, OCTET, 1, 14, REAL, 1,
];
