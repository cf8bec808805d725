// Refusal 22: a CONVERT with a name that is not declared, or of another pair of kinds than INTEGER and REAL.
use crate::declared::kind_of;
use crate::fault::{Conversion, Row, Where};
use tables::family;
use tables::rows::Instruction;
use words::kind::{INTEGER, REAL};

// What a CONVERT does, by the kinds that its names are declared with.
pub fn conversion_of(regions: &[u64], x: Instruction) -> Conversion {
    let Some(to) = kind_of(regions, x.first_name) else {
        return Conversion::NoDestination(x.first_name);
    };
    let Some(from) = kind_of(regions, x.source_first) else {
        return Conversion::NoSource(x.source_first);
    };
    match (from, to) {
        (INTEGER, REAL) => Conversion::ToReal,
        (REAL, INTEGER) => Conversion::ToInteger,
        _ => Conversion::Kinds(from, to),
    }
}

pub(crate) fn conversion(regions: &[u64], row: Row, x: Instruction) -> Option<Where> {
    if x.family != family::CONVERT {
        return None;
    }
    match conversion_of(regions, x) {
        Conversion::ToReal | Conversion::ToInteger => None,
        wrong => Some(Where::Conversion(row, wrong)),
    }
}
