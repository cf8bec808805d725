// A CALL's resolved arguments, or why it does not resolve.
use crate::errors::{Names, RESOLVE_WORDS, show_errors};
use extern_call::rows::{RESOLVED_WIDTH, ResolveError};
use stepper_lines::line::{Line, left_out, shown};
use stepper_lines::quil::complex;
use stepper_lines::refusal::refused;
use stepper_lines::view::View;
use stepper_words::names::NAME_WORDS;

// What a resolved row is, by its first word; any other is an immediate.
pub const VECTOR: u64 = 0;

const MEMORY_REFERENCE: u64 = 1;

// Lines that are shown, unless all are.
const LINES: usize = 10;

fn resolved(line: Line, names: Names, words: &[u64; RESOLVED_WIDTH]) -> Line {
    let &[form, first, second, third, _] = words;
    match form {
        VECTOR => names.name(line, first).with(b' ').vector(second, third),
        MEMORY_REFERENCE => line
            .reference(names.source, names.places, first, second)
            .with(b' ')
            .kind(third),
        _ => complex(line, first, second).text(b" as ").kind(third),
    }
}

// The last word says whether it is mutable.
fn resolved_line(line: Line, names: Names, row: usize, words: &[u64; RESOLVED_WIDTH]) -> Line {
    let numbered = line.text(b"  ").number(row as u64).text(b": ");
    let told = resolved(numbered, names, words).whole();
    if words[4] == 1 {
        return told.text(b", mutable");
    }
    told
}

fn resolved_row(names: Names, view: View, row: usize, words: &[u64; RESOLVED_WIDTH]) {
    let line = Line::new(view);
    let whole = resolved_line(line, names, row, words);
    if whole.fits() {
        whole.end();
    } else {
        resolved_line(line.shortened(), names, row, words).end();
    }
}

// The resolved arguments, a line each.
fn show_resolved(names: Names, view: View, rows: &[u64], count: usize) {
    let lines = shown(view, count, LINES);
    let (arguments, _) = rows.as_chunks::<RESOLVED_WIDTH>();
    for (row, words) in arguments.iter().take(lines).enumerate() {
        resolved_row(names, view, row, words);
    }
    left_out(view, lines, count, b" more arguments: m, then a, shows all");
}

// What resolve answered, with its rows; how many arguments are resolved.
pub fn show_answer(
    source: &[u8],
    names: &[u64; NAME_WORDS],
    view: View,
    rows: &[u64; RESOLVE_WORDS],
    answer: Result<usize, ResolveError>,
) -> usize {
    let names = Names {
        source,
        places: names,
    };
    match answer {
        Ok(count) => {
            show_resolved(names, view, rows, count);
            count
        }
        Err(ResolveError::Errors(count)) => {
            show_errors(names, view, rows, count);
            0
        }
        Err(ResolveError::Refused(refusal)) => {
            refused(refusal, view);
            0
        }
    }
}
