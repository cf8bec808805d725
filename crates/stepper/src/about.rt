// About the current row: a CALL's resolved arguments and access sets, a frame's references and how many nodes its type check looked at, where a jump leads, what a CONVERT gives.
use crate::explain::show_call;
use crate::terminal::Terminal;
use console::references::memory_references;
use labels::labels::label_row;
use stepper_calls::access_row;
use stepper_calls::looked::looked_line;
use stepper_desk::current::row_at;
use stepper_faults::convert::conversion_of;
use stepper_faults::fault::Conversion;
use stepper_lines::line::Line;
use stepper_lines::print::text;
use stepper_lines::refusal::refused;
use stepper_screen::sets::{SET_WORDS, Walk, show_sets, walked};
use stepper_told::errors::RESOLVE_WORDS;
use stepper_words::heading::Table;
use tables::family::{CALL, CONVERT, FRAME, JUMP, JUMP_UNLESS, JUMP_WHEN};
use tables::rows::{INSTRUCTION_WIDTH, Instruction};

// The read and write sets of a CALL.
fn show_access(terminal: &Terminal, row: usize) {
    let mut reads = [0; SET_WORDS];
    let mut writes = [0; SET_WORDS];
    let desk = terminal.desk;
    let answer = access_row(&terminal.tables, desk.lengths, row, &mut reads, &mut writes);
    show_sets(
        terminal.source(),
        &terminal.names,
        desk.view,
        &reads,
        &writes,
        answer,
    );
}

fn walk_on(terminal: &Terminal, walk: Walk, x: Instruction) -> Walk {
    let nodes = terminal.table(Table::Nodes);
    let line = walk.line;
    match memory_references(nodes, x.first_name, x.first_index, walk.place) {
        Ok(stepped) => walked(
            walk,
            terminal.source(),
            &terminal.names,
            stepped,
            nodes.len(),
        ),
        Err(refusal) => {
            refused(refusal, line.view);
            Walk {
                line,
                place: nodes.len(),
            }
        }
    }
}

// The references of a frame's expression, left to right.
fn references(terminal: &Terminal, line: Line, x: Instruction) -> Line {
    let end = terminal.table(Table::Nodes).len();
    let mut walk = Walk { line, place: 0 };
    for _ in 0..end {
        if walk.place >= end {
            break;
        }
        walk = walk_on(terminal, walk, x);
    }
    walk.line
}

fn about_call(terminal: &Terminal, row: usize) {
    let mut rows = [0; RESOLVE_WORDS];
    show_call(terminal, row, &mut rows);
    show_access(terminal, row);
}

// The row that a jump leads to where it is taken; a program that was turned down may have none.
fn leads_to(line: Line, instructions: &[u64], x: Instruction) -> Line {
    let row = label_row(instructions, x.second_name);
    if row >= instructions.len() / INSTRUCTION_WIDTH {
        return line.text(b"  leads to no row");
    }
    let told = line.text(b"  leads to row ").number(row as u64);
    match x.family {
        JUMP_WHEN => told.text(b" where its condition is 1"),
        JUMP_UNLESS => told.text(b" where its condition is 0"),
        _ => told,
    }
}

// By the kinds that its names are declared with, which are the cells' where nothing foreign wrote; a program that was turned down may have other kinds.
fn gives(line: Line, regions: &[u64], x: Instruction) -> Line {
    match conversion_of(regions, x) {
        Conversion::ToReal => line.text(
            b"  as declared, INTEGER to REAL: the nearest, ties to even",
        ),
        Conversion::ToInteger => line.text(
            b"  as declared, REAL to INTEGER: the fraction is dropped",
        ),
        _ => line.text(b"  converts nothing"),
    }
}

fn nothing_more() {
    text(b"there is more to tell of a CALL, a jump, a CONVERT and a frame's row only\n");
}

fn about_row(terminal: &Terminal, row: usize, x: Instruction) {
    let desk = terminal.desk;
    let line = Line::new(desk.view);
    match x.family {
        CALL => about_call(terminal, row),
        FRAME => {
            terminal.row_line(row);
            references(terminal, line.text(b"  references"), x).end();
            looked_line(&terminal.tables, desk.lengths, row)
        }
        JUMP | JUMP_WHEN | JUMP_UNLESS => {
            terminal.row_line(row);
            leads_to(line, terminal.table(Table::Instructions), x).end()
        }
        CONVERT => {
            terminal.row_line(row);
            gives(line, terminal.table(Table::Regions), x).end()
        }
        _ => nothing_more(),
    }
}

pub fn about(terminal: &Terminal) {
    let row = terminal.desk.position.row;
    match row_at(terminal.table(Table::Instructions), row) {
        Some(x) => about_row(terminal, row, x),
        None => nothing_more(),
    }
}
