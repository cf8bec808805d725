// A row of each form, as the loader allows it: each operand has its own names (regions.rt).
ghost use Rattle.std.specs.Prelude.{◌≡◌, ◌<◌};
ghost use Rattle.verdict_table.specs.Chart.{form_count};
ghost use Rattle.verdict_digits.specs.Rows.{Divides, family_at, operand_word, source_form, row_in, row_at};

use crate::regions::{FIRST, SECOND, SOURCE};
use tables::rows::Instruction;
use tables::source;
use verdict_table::blocks::{Block, FAMILIES, NAMES, block_of};

// The family whose block a place is in.
fn family_at(place: usize) -> usize
    ensures { result ≡ family_at place }
{
    let last = FAMILIES - 1;
    (0..last)
        .find(|&family| place < block_of(family + 1).start)
        .unwrap_or(last)
}

// The name of the operand at `which` of its choices, or a literal's bits; 0 where the family has no such operand.
fn operand_word(choices: usize, undeclared: u64, which: usize) -> u64
    requires undeclared_lt_form_count { undeclared < form_count }
    requires which_lt_form_count { which < form_count }
    ensures { result ≡ operand_word choices undeclared which }
{
    if choices == 1 {
        0
    } else {
        undeclared + which as u64
    }
}

// After the names the literals.
fn source_form(choices: usize, which: usize) -> u64
    ensures { result ≡ source_form choices which }
{
    if choices == 1 {
        source::NONE
    } else if which < NAMES {
        source::REFERENCE
    } else if which == NAMES {
        source::INTEGER_LITERAL
    } else {
        source::REAL_LITERAL
    }
}

// The form at a place of a block: its operands, the last fastest.
fn row_in(family: usize, block: Block, place: usize) -> Instruction
    requires divides { Divides block }
    requires place_lt_form_count { place < form_count }
    ensures { result ≡ row_in family block place }
{
    let operands = place / block.operators;
    let names = operands / block.sources;
    let which = operands % block.sources;
    Instruction {
        family: family as u64,
        operator: (place % block.operators) as u64,
        first_name: operand_word(NAMES, FIRST, names / block.seconds),
        first_index: 0,
        second_name: operand_word(block.seconds, SECOND, names % block.seconds),
        second_index: 0,
        source_form: source_form(block.sources, which),
        source_first: operand_word(block.sources, SOURCE, which),
        source_second: 0,
    }
}

pub fn row_at(place: usize) -> Instruction
    requires { place < form_count }
    ensures { result ≡ row_at place }
{
    let family = family_at(place);
    let block = block_of(family);
    row_in(family, block, place - block.start)
}
