// Refusal 2, of the instructions: the words that each family allows.
#![tactic(auto, unfolding(crate::specs::Instruction::source_allowed, crate::specs::Instruction::flow_allowed, crate::specs::Instruction::operators_of, crate::specs::Instruction::form_allowed, crate::specs::Instruction::operands_allowed, crate::specs::Instruction::instruction_allowed, crate::specs::Instruction::flow_operators_of, crate::specs::Instruction::flow_operands_allowed, tables::specs::Cases::case_of))]

ghost use Rattle.std.specs.Prelude.{◌≡◌, ◌&&◌, ◌||◌, ◌+◌, ◌<◌, ◌≤◌, eqb, ltb, length};
ghost use Rattle.tables.specs.Rows.{node_rows, node_limit};
ghost use Rattle.tables.specs.Ends.{EndsFrom};
ghost use Rattle.tables.specs.Source as source;
ghost use Rattle.word_rules.specs.Allowed.{nodes_allowed};
ghost use Rattle.word_rules.specs.Instruction.{source_allowed, flow_allowed, instruction_allowed, instructions_allowed};

use crate::nodes::nodes_end;
use tables::ends::ends_with;
use tables::rows::{INSTRUCTION_WIDTH, Instruction, NODE_LIMIT, NODE_WIDTH, instruction_at};
use tables::tree::range_inside;
use tables::{family, operator, source};

// That many nodes and more take the room for all.
const FEW_NODES: usize = 64;

// Room for where each node's tree ends, and for two ends past the last node.
const FEW_ENDS: usize = FEW_NODES + 1;

const ALL_ENDS: usize = NODE_LIMIT + 2;

// What an end is before it is found: no 0, since to clear the room would be a call of memset, and the library calls nothing.
const UNSET: u16 = 1;

// A word that is not used.
const UNUSED: u64 = 0;

// A literal, whose second word is 0, or a reference; beside the operands' words.
fn any_source(x: Instruction, operands: bool) -> bool
    ensures { result ≡ (ltb x.source_form source.none && (source_allowed x && operands)) }
{
    (x.source_form < source::NONE)
        & (((x.source_form == source::REFERENCE) | (x.source_second == 0)) & operands)
}

// No real literal.
fn integral_source(x: Instruction, operands: bool) -> bool
    ensures { result ≡ ((eqb x.source_form source.integer_literal || eqb x.source_form source.reference) && (source_allowed x && operands)) }
{
    ((x.source_form == source::REFERENCE)
        | ((x.source_form == source::INTEGER_LITERAL) & (x.source_second == 0)))
        & operands
}

// An offset.
fn reference_source(x: Instruction, operands: bool) -> bool
    ensures { result ≡ (eqb x.source_form source.reference && (source_allowed x && operands)) }
{
    (x.source_form == source::REFERENCE) & operands
}

fn no_source(x: Instruction, operands: bool) -> bool
    ensures { result ≡ (eqb x.source_form source.none && (source_allowed x && operands)) }
{
    (x.source_form == source::NONE) & (((x.source_first == 0) & (x.source_second == 0)) & operands)
}

// Families 11 to 15: no operator and no source.
fn flow_allowed(x: Instruction) -> bool
    ensures { result ≡ flow_allowed x }
{
    let no_condition = (x.first_name == 0) & (x.first_index == 0);
    let no_index = x.second_index == 0;
    match x.family {
        family::JUMP | family::LABEL => (x.operator == UNUSED)
            & no_source(x, no_condition & no_index),
        family::JUMP_WHEN | family::JUMP_UNLESS => (x.operator == UNUSED) & no_source(x, no_index),
        family::HALT => (x.operator == UNUSED)
            & no_source(x, no_condition & ((x.second_name == 0) & no_index)),
        _ => false,
    }
}

// The words of a row by its family: its operators, its source, its operands. `ends` has where each node's tree ends; `arguments` is the number of argument rows.
fn instruction_allowed(nodes: &[u64], ends: &[u16], arguments: usize, x: Instruction) -> bool
    requires { EndsFrom nodes.now ends.now 0 }
    ensures { result ≡ instruction_allowed nodes.now arguments x }
{
    let second_unused = (x.second_name == 0) & (x.second_index == 0);
    match x.family {
        family::ARITHMETIC => (x.operator <= operator::MULTIPLY) & any_source(x, second_unused),
        family::COMPARISON => (x.operator <= operator::LESS_THAN) & any_source(x, true),
        family::BINARY_LOGIC => (x.operator <= operator::ASHR) & integral_source(x, second_unused),
        family::UNARY => (x.operator <= operator::NOT) & no_source(x, second_unused),
        family::MOVE => (x.operator == UNUSED) & any_source(x, second_unused),
        family::EXCHANGE => (x.operator == UNUSED) & no_source(x, true),
        family::LOAD => (x.operator == UNUSED) & reference_source(x, x.second_index == 0),
        family::STORE => (x.operator == UNUSED) & any_source(x, x.first_index == 0),
        family::FRAME => (x.operator <= operator::SHIFT_PHASE)
            & no_source(
                x,
                second_unused & ends_with(nodes, ends, x.first_name, x.first_index),
            ),
        family::CALL => (x.operator == UNUSED)
            & no_source(
                x,
                (x.second_index == 0) & range_inside(x.first_index, x.second_name, arguments),
            ),
        family::OTHER => (x.operator <= operator::ANY_OTHER)
            & no_source(
                x,
                (x.first_name == 0) & ((x.first_index == 0) & second_unused),
            ),
        family::CONVERT => (x.operator == UNUSED) & reference_source(x, second_unused),
        _ => flow_allowed(x),
    }
}

fn rows_allowed(instructions: &[u64], nodes: &[u64], ends: &[u16], arguments: usize) -> bool
    requires { EndsFrom nodes.now ends.now 0 }
    ensures { result ≡ instructions_allowed nodes.now arguments instructions.now }
{
    let rows = instructions.len() / INSTRUCTION_WIDTH;
    (0..rows).all(|row| {
        let x = instruction_at(instructions, row);
        instruction_allowed(nodes, ends, arguments, x)
    })
}

// The nodes, then the rows, whose frames ask where the nodes' trees end.
fn allowed_with_ends(
    instructions: &[u64],
    nodes: &[u64],
    ends: &mut [u16],
    arguments: usize,
) -> bool
    requires { (node_rows nodes.now ≤ node_limit) × (node_rows nodes.now + 1 < length ends.old) }
    ensures { result ≡ (nodes_allowed nodes.now && instructions_allowed nodes.now arguments instructions.now) }
{
    nodes_end(nodes, ends) && rows_allowed(instructions, nodes, ends, arguments)
}

// With room for N ends, which takes the less to fill the fewer they are.
fn allowed_with_room<const N: usize>(instructions: &[u64], nodes: &[u64], arguments: usize) -> bool
    requires { (node_rows nodes.now ≤ node_limit) × (node_rows nodes.now + 1 < N) × (N ≤ node_limit + 2) }
    ensures { result ≡ (nodes_allowed nodes.now && instructions_allowed nodes.now arguments instructions.now) }
{
    let mut ends = [UNSET; N];
    allowed_with_ends(instructions, nodes, &mut ends, arguments)
}

// Every word rule of the nodes and the instructions.
pub fn nodes_and_rows_allowed(instructions: &[u64], nodes: &[u64], arguments: usize) -> bool
    requires { node_rows nodes.now ≤ node_limit }
    ensures { result ≡ (nodes_allowed nodes.now && instructions_allowed nodes.now arguments instructions.now) }
{
    if nodes.len() / NODE_WIDTH < FEW_NODES {
        return allowed_with_room::<FEW_ENDS>(instructions, nodes, arguments);
    }
    allowed_with_room::<ALL_ENDS>(instructions, nodes, arguments)
}
