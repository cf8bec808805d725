// A row of the program: its words, whether it is a CALL, its line as on the screen.
use crate::state::Desk;
use stepper_lines::print::byte;
use stepper_lines::program::row_line;
use stepper_tables::file::TABLE_WORDS;
use stepper_tables::held::table;
use stepper_words::heading::Table;
use stepper_words::names::NAME_WORDS;
use tables::family::CALL;
use tables::rows::{INSTRUCTION_WIDTH, Instruction, instruction_at};

// A row of the program, or nothing at its end.
pub fn row_at(instructions: &[u64], row: usize) -> Option<Instruction> {
    if row < instructions.len() / INSTRUCTION_WIDTH {
        return Some(instruction_at(instructions, row));
    }
    None
}

pub fn is_call(instructions: &[u64], row: usize) -> bool {
    row_at(instructions, row).is_some_and(|x| x.family == CALL)
}

// The row as on the screen.
pub fn this_row(
    source: &[u8],
    names: &[u64; NAME_WORDS],
    tables: &[u64; TABLE_WORDS],
    desk: Desk,
    row: usize,
) {
    let lengths = desk.lengths;
    row_line(
        source,
        names,
        desk.view,
        table(tables, Table::Nodes, lengths),
        table(tables, Table::Arguments, lengths),
        table(tables, Table::Instructions, lengths),
        row,
    );
    byte(b'\n');
}
