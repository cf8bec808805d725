// The report: the forms under each verdict, by family and in all.
use crate::forms::{Span, VERDICT_COUNT};
use crate::label::family_name;
use crate::layout::{new_line, right};
use stepper_lines::line::Line;
use stepper_lines::print::text;
use tables::family::FRAME;

// The column before which the first number ends, and how many columns a number has.
const FIRST_NUMBER: usize = 22;

const NUMBER: usize = 10;

// The number of all forms, and of those under each verdict.
fn counts(line: Line, forms: Span) -> Line {
    let mut made = right(line, forms.size() as u64, FIRST_NUMBER);
    let mut column = FIRST_NUMBER;
    for verdict in 0..VERDICT_COUNT {
        column = column.wrapping_add(NUMBER);
        made = right(made, forms.under(verdict) as u64, column);
    }
    made
}

fn families() {
    for family in 0..FRAME {
        counts(family_name(new_line(), family), Span::of_family(family)).end();
    }
}

pub fn report() {
    text(b"family           forms  accepted   error 1   error 2   error 3   error 4\n");
    families();
    counts(new_line().text(b"all"), Span::whole()).end();
}
