// Type errors in words, a line for each kind; there is none of kind 0.
use crate::print::line;

// As 01 names it.
pub fn name(kind: u64) {
    line(b"\nundefined\ndata type\nreal required\noperand", kind);
}

pub fn cause(kind: u64) {
    line(
        b"\n\
        an operand is not declared\n\
        kinds differ\n\
        a frame needs a real value\n\
        the operator does not take the operand",
        kind,
    );
}
