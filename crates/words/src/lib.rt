// Operators on the words of cells: kinds and widths, two's complement, bits, conversions. REAL's are in reals.
#![tactic(auto)]

pub mod convert;
pub mod integer;
pub mod kind;
pub mod width;
