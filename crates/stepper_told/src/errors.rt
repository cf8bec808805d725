// Type errors and argument errors in words.
use extern_call::rows::ERROR_WIDTH;
use stepper_lines::line::{Line, left_out, shown};
use stepper_lines::print::{byte, line, number, text};
use stepper_lines::quil::argument;
use stepper_lines::view::View;
use stepper_words::names::NAME_WORDS;
use tables::rows::{Argument, PARAMETER_LIMIT};
use type_rules::code::{DATA_TYPE, NODE, REAL_REQUIRED, UNDEFINED};
use type_rules::error::TypeError;

// Room for an error of the return and of each parameter.
pub const RESOLVE_WORDS: usize = ERROR_WIDTH * (PARAMETER_LIMIT + 1);

// The argument errors, by number; any other is an immediate for a mutable parameter.
const UNDECLARED: u64 = 1;

const MISMATCHED_VECTOR: u64 = 2;

const MISMATCHED_SCALAR: u64 = 3;

const INVALID_VECTOR: u64 = 4;

const RETURN_ARGUMENT: u64 = 5;

const DETAILS: usize = 4;

// Lines of argument errors that are shown, unless all are.
const LINES: usize = 4;

// The text of the names, and where each stands in it.
#[derive(Clone, Copy)]
pub(crate) struct Names<'a> {
    pub source: &'a [u8],
    pub places: &'a [u64; NAME_WORDS],
}

impl Names<'_> {
    pub fn name(self, line: Line, n: u64) -> Line {
        line.name(self.source, self.places, n)
    }
}

// The operand that an error names: from 1 a row's, then an expression's nodes.
fn spot(n: u64) {
    if n >= NODE {
        text(b"node ");
        number(n - NODE);
        text(b" of the expression");
        return;
    }
    line(
        b"\n\
        the first operand\n\
        the second operand\n\
        the source",
        n,
    );
}

// The codes of 01, a line for each.
fn code(n: u64) {
    line(
        b"BIT\n\
        INTEGER\n\
        OCTET\n\
        REAL\n\
        an integer literal\n\
        a real literal\n\
        an imaginary number\n\
        a variable\n\
        absent\n\
        REAL or INTEGER\n\
        BIT, INTEGER or OCTET\n\
        BIT",
        n,
    );
}

fn is(n: u64) {
    text(b" is ");
    code(n);
}

pub fn type_error(error: TypeError) {
    let number_of_error = error.kind;
    text(b"type error ");
    number(number_of_error);
    text(b" in row ");
    number(error.row);
    text(b": ");
    spot(error.spot);
    match number_of_error {
        UNDEFINED => text(b" is not declared"),
        DATA_TYPE => {
            is(error.first_code);
            text(b", ");
            spot(error.src_spot);
            is(error.second_code)
        }
        REAL_REQUIRED => {
            is(error.first_code);
            text(b", where a real value is required")
        }
        _ => {
            is(error.first_code);
            text(b", where ");
            code(error.second_code);
            text(b" is required")
        }
    }
    byte(b'\n');
}

// An argument among the details.
fn argument_of(details: [u64; DETAILS]) -> Argument {
    Argument {
        form: details[0],
        first: details[1],
        second: details[2],
    }
}

fn mismatched_vector(line: Line, details: [u64; DETAILS]) -> Line {
    line.vector(details[0], details[1])
        .text(b" expected, ")
        .vector(details[2], details[3])
        .text(b" given")
}

fn mismatched_scalar(line: Line, details: [u64; DETAILS]) -> Line {
    line.kind(details[0])
        .text(b" expected, ")
        .kind(details[1])
        .text(b" given")
}

// The line with the argument that was given.
fn given(line: Line, names: Names, details: [u64; DETAILS]) -> Line {
    argument(
        line.whole(),
        names.source,
        names.places,
        argument_of(details),
    )
}

// The six causes, by number; the details are the error row's last four words.
fn cause(line: Line, names: Names, error: u64, details: [u64; DETAILS]) -> Line {
    match error {
        UNDECLARED => names.name(line, details[0]).text(b" is not declared"),
        MISMATCHED_VECTOR => mismatched_vector(line, details),
        MISMATCHED_SCALAR => mismatched_scalar(line, details),
        INVALID_VECTOR => given(line.text(b"no vector is given: "), names, details),
        RETURN_ARGUMENT => given(line.text(b"the return needs memory, not "), names, details),
        _ => names.name(line.text(b"an immediate for the mutable "), details[0]),
    }
}

fn place(line: Line, return_or_parameter: u64, index: u64) -> Line {
    if return_or_parameter == 0 {
        return line.text(b"  the return: ");
    }
    line.text(b"  parameter ").number(index).text(b": ")
}

// An error's line, in whole names or shortened ones.
fn error_line(line: Line, names: Names, error: u64, details: [u64; DETAILS]) {
    let headed = line.text(b"argument error ").number(error).text(b": ");
    let whole = cause(headed, names, error, details);
    if whole.fits() {
        whole.end();
    } else {
        cause(headed.whole().shortened(), names, error, details).end();
    }
}

fn error_row(names: Names, view: View, row: &[u64; ERROR_WIDTH]) {
    let &[
        return_or_parameter,
        index,
        error,
        first,
        second,
        third,
        fourth,
    ] = row;
    let placed = place(Line::new(view), return_or_parameter, index);
    error_line(placed, names, error, [first, second, third, fourth]);
}

// The error rows of a CALL, a line each.
pub(crate) fn show_errors(names: Names, view: View, rows: &[u64], count: usize) {
    let lines = shown(view, count, LINES);
    let (errors, _) = rows.as_chunks::<ERROR_WIDTH>();
    for error in errors.iter().take(lines) {
        error_row(names, view, error);
    }
    left_out(view, lines, count, b" more errors: m, then r, shows all");
}
