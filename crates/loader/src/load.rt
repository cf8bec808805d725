// Refusals 1, 2 and 3 over all tables, in that order.
#![tactic(auto, unfolding(crate::specs::Load::allowed_tables, crate::specs::Load::chosen_row, crate::specs::Load::distinct_names))]

ghost use Rattle.std.specs.Prelude.{◌≡◌, ◌≤◌};
ghost use Rattle.tables.specs.Rows.{node_limit, node_rows};
ghost use Rattle.tables.specs.Tables.{tables_of};
ghost use Rattle.loader.specs.Load.{allowed_tables, distinct_names, chosen_row, chosen_look, load_look, load_row_look, load_nodes_look};

use crate::expression::expression_allowed;
use crate::shape::{whole_rows, whole_tables};
use tables::lookup::distinct_names;
use tables::refusal::Refusal;
use tables::rows::{
    ARGUMENT_WIDTH, EXTERN_WIDTH, INSTRUCTION_WIDTH, NODE_LIMIT, NODE_WIDTH, PARAMETER_WIDTH,
    REGION_WIDTH, instruction_at,
};
use word_rules::allowed::{
    arguments_allowed, externs_allowed, parameters_allowed, regions_allowed,
};
use word_rules::instruction::nodes_and_rows_allowed;

// Every word rule of every table, of tables within their limits.
fn allowed_tables(
    regions: &[u64],
    externs: &[u64],
    parameters: &[u64],
    nodes: &[u64],
    arguments: &[u64],
    instructions: &[u64],
) -> bool
    requires { node_rows nodes.now ≤ node_limit }
    ensures { result ≡ allowed_tables (tables_of regions.now externs.now parameters.now nodes.now arguments.now instructions.now) }
{
    regions_allowed(regions)
        & (externs_allowed(externs, parameters.len() / PARAMETER_WIDTH)
            & (parameters_allowed(parameters)
                & (arguments_allowed(arguments)
                    & nodes_and_rows_allowed(
                        instructions,
                        nodes,
                        arguments.len() / ARGUMENT_WIDTH,
                    ))))
}

// No two regions and no two externs of one name.
fn distinct_tables(regions: &[u64], externs: &[u64]) -> bool
    ensures { result ≡ distinct_names regions.now externs.now }
{
    distinct_names(regions, REGION_WIDTH) & distinct_names(externs, EXTERN_WIDTH)
}

// Whether the chosen row is there and of the family.
fn chosen_row(instructions: &[u64], row: usize, family: u64) -> bool
    ensures { result ≡ chosen_row instructions.now row family }
{
    row < instructions.len() / INSTRUCTION_WIDTH
        && instruction_at(instructions, row).family == family
}

// The looks in their order. `chosen` says whether the row that the call takes, if it takes one, is there and of its family.
fn look_at_tables(
    regions: &[u64],
    externs: &[u64],
    parameters: &[u64],
    nodes: &[u64],
    arguments: &[u64],
    instructions: &[u64],
    chosen: bool,
) -> Result<(), Refusal>
    ensures { result ≡ chosen_look (tables_of regions.now externs.now parameters.now nodes.now arguments.now instructions.now) chosen }
{
    if !whole_tables(regions, externs, parameters, nodes, arguments, instructions) {
        return Err(Refusal::TableShape);
    }
    let allowed = allowed_tables(regions, externs, parameters, nodes, arguments, instructions)
        & chosen;
    if !allowed {
        return Err(Refusal::WordNotAllowed);
    }
    if !distinct_tables(regions, externs) {
        return Err(Refusal::NameTwice);
    }
    Ok(())
}

pub fn load_tables(
    regions: &[u64],
    externs: &[u64],
    parameters: &[u64],
    nodes: &[u64],
    arguments: &[u64],
    instructions: &[u64],
) -> Result<(), Refusal>
    ensures { result ≡ load_look (tables_of regions.now externs.now parameters.now nodes.now arguments.now instructions.now) }
{
    look_at_tables(
        regions,
        externs,
        parameters,
        nodes,
        arguments,
        instructions,
        true,
    )
}

// For the calls that take a row: it must be there, of the family.
pub fn load_row(
    regions: &[u64],
    externs: &[u64],
    parameters: &[u64],
    nodes: &[u64],
    arguments: &[u64],
    instructions: &[u64],
    row: usize,
    family: u64,
) -> Result<(), Refusal>
    ensures { result ≡ load_row_look (tables_of regions.now externs.now parameters.now nodes.now arguments.now instructions.now) row family }
{
    let chosen = chosen_row(instructions, row, family);
    look_at_tables(
        regions,
        externs,
        parameters,
        nodes,
        arguments,
        instructions,
        chosen,
    )
}

// The nodes alone, with a chosen range that must be one tree.
pub fn load_nodes(nodes: &[u64], first: u64, count: u64) -> Result<(), Refusal>
    ensures { result ≡ load_nodes_look nodes.now first count }
{
    if !whole_rows(nodes, NODE_WIDTH, NODE_LIMIT) {
        return Err(Refusal::TableShape);
    }
    if !expression_allowed(nodes, first, count) {
        return Err(Refusal::WordNotAllowed);
    }
    Ok(())
}
