// Refusal 2: what a row asks for, where its words are allowed: an extern its parameters, a frame its nodes, a CALL its arguments.
use crate::fault::{Range, Row, Where};
use crate::program::Program;
use loader::expression::expression_allowed;
use stepper_words::heading::Table;
use stepper_words::place::ROW_WORDS;
use tables::family;
use tables::rows::{NODE_LIMIT, NODE_WIDTH};
use tables::tree::range_inside;

// What a row asks for, where it lies outside its table; else the row.
fn outside(row: Row, range: Range) -> Where {
    if range_inside(range.first, range.count, range.rows) {
        return Where::Whole(row);
    }
    Where::Outside(row, range)
}

// Whether the rows are one tree, by the library's rule, of nodes whose words are all allowed.
fn one_tree(nodes: &[u64], first: u64, count: u64) -> bool {
    nodes.len() / NODE_WIDTH <= NODE_LIMIT && expression_allowed(nodes, first, count)
}

// How many rows from `first` on, fewer than `count`, are one tree; 0 where none are.
fn tree_rows(nodes: &[u64], first: u64, count: u64) -> u64 {
    (0..count)
        .find(|rows| one_tree(nodes, first, *rows))
        .unwrap_or(0)
}

// A frame's nodes.
fn tree(row: Row, range: Range, nodes: &[u64]) -> Where {
    match outside(row, range) {
        Where::Whole(_) if !one_tree(nodes, range.first, range.count) => {
            Where::NotOneTree(row, range, tree_rows(nodes, range.first, range.count))
        }
        found => found,
    }
}

fn range(program: Program, table: Table, first: u64, count: u64) -> Range {
    Range {
        first,
        count,
        table,
        rows: program.rows(table),
    }
}

fn instruction_asks(row: Row, words: [u64; ROW_WORDS], program: Program) -> Where {
    match words[0] {
        family::FRAME => tree(
            row,
            range(program, Table::Nodes, words[2], words[3]),
            program.nodes,
        ),
        family::CALL => outside(row, range(program, Table::Arguments, words[3], words[4])),
        _ => Where::Whole(row),
    }
}

// Where what a row asks for is not allowed; the row alone where it is.
pub fn asked_for(row: Row, words: [u64; ROW_WORDS], program: Program) -> Where {
    match row.table {
        Table::Externs => outside(row, range(program, Table::Parameters, words[2], words[3])),
        Table::Instructions => instruction_asks(row, words, program),
        _ => Where::Whole(row),
    }
}
