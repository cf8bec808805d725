// Which regions a row names: by an operand, an argument, or an address of its expression.
use operands::names::{names_first, names_second};
use std::array;
use stepper_lines::quil::at_most;
use tables::rows::{Instruction, NODE_WIDTH, REGION_LIMIT, REGION_WIDTH, region_at};
use tables::{argument_form, family, node_tag, source};

// A row of nodes or of arguments, which both are a form, a name and an index: whether its form is one of those, from 0, that have a name, and its name is this one.
fn row_names(table: &[u64], row: usize, last_form: u64, name: u64) -> bool {
    if row < table.len() / NODE_WIDTH {
        let at = row * NODE_WIDTH;
        return table[at] <= last_form && table[at + 1] == name;
    }
    false
}

fn rows_name(table: &[u64], first: u64, count: u64, last_form: u64, name: u64) -> bool {
    (0..count).any(|i| row_names(table, first.wrapping_add(i) as usize, last_form, name))
}

fn operands_name(x: Instruction, name: u64) -> bool {
    let first = names_first(x.family) && x.first_name == name;
    let second = names_second(x.family) && x.second_name == name;
    let source = x.source_form == source::REFERENCE && x.source_first == name;
    first || second || source
}

fn names(nodes: &[u64], arguments: &[u64], x: Instruction, name: u64) -> bool {
    match x.family {
        family::FRAME => rows_name(
            nodes,
            x.first_name,
            at_most(x.first_index, nodes.len() / NODE_WIDTH),
            node_tag::ADDRESS,
            name,
        ),
        family::CALL => rows_name(
            arguments,
            x.first_index,
            at_most(x.second_name, arguments.len() / NODE_WIDTH),
            argument_form::REFERENCE,
            name,
        ),
        _ => operands_name(x, name),
    }
}

// For each region whether the row names it.
pub fn named_regions(
    regions: &[u64],
    nodes: &[u64],
    arguments: &[u64],
    x: Instruction,
) -> [bool; REGION_LIMIT] {
    let rows = regions.len() / REGION_WIDTH;
    array::from_fn(|r| r < rows && names(nodes, arguments, x, region_at(regions, r).name))
}
