// The chart's forms: those of a family and of a row, the mark of each, and how many are under a verdict. A place past the chart has a blank.
use tables::family::FRAME;
use type_rules::code::OPERAND;
use verdict_table::blocks::{NAMES, block_of};
use verdict_table::counts::forms_under;
use verdict_table::table::{FORMS, verdict_at};

// Accepted, and the type errors.
pub const VERDICT_COUNT: u8 = OPERAND as u8 + 1;

// From `start` up to `end`.
#[derive(Clone, Copy)]
pub struct Span {
    pub start: usize,
    pub end: usize,
}

// Where a family's forms start; the chart's end for a family that has none.
fn start_of(family: u64) -> usize {
    if family < FRAME {
        block_of(family as usize).start
    } else {
        FORMS
    }
}

impl Span {
    pub fn whole() -> Span {
        Span {
            start: 0,
            end: FORMS,
        }
    }

    pub fn of_family(family: u64) -> Span {
        Span {
            start: start_of(family),
            end: start_of(family.wrapping_add(1)),
        }
    }

    pub fn size(self) -> usize {
        self.end.wrapping_sub(self.start)
    }

    pub fn under(self, verdict: u8) -> usize {
        let end = self.end.min(FORMS);
        let start = self.start.min(end);
        forms_under(verdict, start, end - start)
    }
}

// How many forms a row of a family's block has.
pub fn row_size(family: u64) -> usize {
    Span::of_family(family).size() / NAMES
}

// Whether a family has three operands: its columns then stand in groups, one for each second operand.
pub fn is_grouped(family: u64) -> bool {
    if family < FRAME {
        let block = block_of(family as usize);
        return (block.seconds > 1) & (block.sources > 1);
    }
    false
}

// How many columns a group has, or all where there are no groups.
pub fn columns_of(family: u64) -> usize {
    if is_grouped(family) {
        return row_size(family) / NAMES;
    }
    row_size(family)
}

// Where the row of a first operand begins.
pub fn row_start(family: u64, first: u64) -> usize {
    let before = row_size(family).wrapping_mul(first as usize);
    start_of(family).wrapping_add(before)
}

// The letter of a verdict; a blank where there is none.
pub fn mark_of(verdict: u8) -> u8 {
    match verdict {
        0 => b'A',
        1 => b'U',
        2 => b'D',
        3 => b'R',
        4 => b'O',
        _ => b' ',
    }
}

// The letter of the form at a place.
pub fn mark_at(place: usize) -> u8 {
    if place < FORMS {
        mark_of(verdict_at(place))
    } else {
        b' '
    }
}
