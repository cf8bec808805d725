// The screen: how far the program is and how long a journal is enough, its rows with the current one marked, and the regions with their cells and what the last step changed.
use crate::enough::beside_used;
use crate::named::named_regions;
use crate::regions::region_lines;
use journal::entries::ENTRY_WIDTH;
use script::line::part;
use stepper_desk::current::row_at;
use stepper_desk::state::{Desk, MEMORY_WORDS, TEXT_BYTES};
use stepper_lines::print::{byte, counted, number, text};
use stepper_lines::program::program_rows;
use stepper_tables::file::TABLE_WORDS;
use stepper_tables::held::table;
use stepper_words::heading::Table;
use stepper_words::names::NAME_WORDS;
use tables::rows::{INSTRUCTION_WIDTH, REGION_LIMIT};

// The current row. Past the last one is the end.
fn row_of(row: usize, rows: usize) {
    if row == rows {
        text(b"end of ");
        counted(rows as u64, b"row");
        return;
    }
    text(b"row ");
    number(row as u64);
    text(b" of ");
    number(rows as u64);
}

fn head(desk: Desk, rows: usize) {
    let position = desk.position;
    text(b"-- ");
    row_of(position.row, rows);
    text(b", ");
    counted(position.done as u64, b"step");
    text(b", ");
    number(position.used as u64);
    text(b" of ");
    number((desk.journal / ENTRY_WIDTH) as u64);
    text(b" entries used");
    beside_used(desk.enough);
    byte(b'\n');
}

// For each region whether the current row names it.
fn named(tables: &[u64; TABLE_WORDS], desk: Desk) -> [bool; REGION_LIMIT] {
    let lengths = desk.lengths;
    let instructions = table(tables, Table::Instructions, lengths);
    match row_at(instructions, desk.position.row) {
        Some(x) => named_regions(
            table(tables, Table::Regions, lengths),
            table(tables, Table::Nodes, lengths),
            table(tables, Table::Arguments, lengths),
            x,
        ),
        None => [false; REGION_LIMIT],
    }
}

// The cells before the last step, and now.
fn screen(
    source: &[u8],
    names: &[u64; NAME_WORDS],
    tables: &[u64; TABLE_WORDS],
    before: &[u64],
    memory: &[u64],
    desk: Desk,
) {
    let lengths = desk.lengths;
    let view = desk.view;
    let instructions = table(tables, Table::Instructions, lengths);
    head(desk, instructions.len() / INSTRUCTION_WIDTH);
    program_rows(
        source,
        names,
        view,
        table(tables, Table::Nodes, lengths),
        table(tables, Table::Arguments, lengths),
        instructions,
        desk.position.row,
    );
    let named = named(tables, desk);
    region_lines(
        source,
        names,
        view.with_cells(desk.is_opened()),
        table(tables, Table::Regions, lengths),
        before,
        memory,
        &named,
    );
}

// The screen of the desk's file.
pub fn show(
    buffer: &[u8; TEXT_BYTES],
    names: &[u64; NAME_WORDS],
    tables: &[u64; TABLE_WORDS],
    before: &[u64; MEMORY_WORDS],
    memory: &[u64; MEMORY_WORDS],
    desk: Desk,
) {
    if desk.has_file() {
        screen(
            part(buffer, 0, desk.text),
            names,
            tables,
            before,
            memory,
            desk,
        );
    }
}
