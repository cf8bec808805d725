// Refusal 1: the first table that is not whole rows, or over its limit.
use crate::fault::Where;
use crate::program::{Program, TABLES};
use loader::shape::whole_rows;
use stepper_words::heading::Table;
use tables::rows::{
    ARGUMENT_LIMIT, EXTERN_LIMIT, INSTRUCTION_LIMIT, NODE_LIMIT, PARAMETER_LIMIT, REGION_LIMIT,
};

// How many rows a table may have.
fn limit_of(table: Table) -> usize {
    match table {
        Table::Regions => REGION_LIMIT,
        Table::Externs => EXTERN_LIMIT,
        Table::Parameters => PARAMETER_LIMIT,
        Table::Nodes => NODE_LIMIT,
        Table::Arguments => ARGUMENT_LIMIT,
        Table::Instructions => INSTRUCTION_LIMIT,
    }
}

fn shape(table: Table, words: &[u64]) -> Option<Where> {
    let width = table.width();
    let limit = limit_of(table);
    if whole_rows(words, width, limit) {
        return None;
    }
    if words.len() % width == 0 {
        return Some(Where::OverLimit(table, words.len() / width, limit));
    }
    Some(Where::NotWholeRows(table, words.len(), width))
}

pub fn find_shape(program: Program) -> Option<Where> {
    TABLES
        .iter()
        .find_map(|table| shape(*table, program.words(*table)))
}
