// Refusal 2: the first row that the library does not allow, and in it the first word that its place does not allow, or else what it asks for.
use crate::allowed::words_at;
use crate::fault::{Row, Where};
use crate::program::{Program, TABLES};
use crate::range::asked_for;
use crate::row::whole_row;
use stepper_words::heading::Table;
use stepper_words::names::word_of;
use stepper_words::place::{ROW_WORDS, place_of};
use tables::rows::{NODE_LIMIT, NODE_WIDTH};
use word_rules::allowed::{
    arguments_allowed, externs_allowed, nodes_allowed, parameters_allowed, regions_allowed,
};
use word_rules::instruction::nodes_and_rows_allowed;

// A table of one instruction, by the library's rule, which looks at the nodes too: they are within their limit and allowed.
fn instruction_allowed(row: &[u64], program: Program) -> bool {
    let nodes = program.nodes;
    if nodes.len() / NODE_WIDTH > NODE_LIMIT {
        return true;
    }
    nodes_and_rows_allowed(row, nodes, program.rows(Table::Arguments))
}

// A table of one row, by the library's rule. A row may ask for nodes, parameters or arguments.
fn row_allowed(table: Table, row: &[u64], program: Program) -> bool {
    match table {
        Table::Regions => regions_allowed(row),
        Table::Externs => externs_allowed(row, program.rows(Table::Parameters)),
        Table::Parameters => parameters_allowed(row),
        Table::Nodes => nodes_allowed(row, 0, row.len() / NODE_WIDTH),
        Table::Arguments => arguments_allowed(row),
        Table::Instructions => instruction_allowed(row, program),
    }
}

fn word_allowed(table: Table, words: [u64; ROW_WORDS], column: usize) -> bool {
    let allowed = words_at(place_of(table, words, column), words[0]);
    allowed.has(word_of(&words, column))
}

// In a row that is not allowed, the first word that its place does not allow, or else what the row asks for.
fn fault_in(row: Row, words: [u64; ROW_WORDS], program: Program) -> Where {
    let table = row.table;
    match (0..table.width()).find(|column| !word_allowed(table, words, *column)) {
        Some(column) => Where::Word(row, column),
        None => asked_for(row, words, program),
    }
}

fn find_in(table: Table, program: Program) -> Option<Where> {
    program
        .words(table)
        .chunks(table.width())
        .enumerate()
        .find(|(_, words)| !row_allowed(table, words, program))
        .map(|(number, words)| fault_in(Row { table, number }, whole_row(words), program))
}

pub fn find_word(program: Program) -> Option<Where> {
    TABLES.iter().find_map(|table| find_in(*table, program))
}
