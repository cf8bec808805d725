// Refusals 20, 21 and 22: the first row that is at fault.
use crate::convert::conversion;
use crate::fault::{Row, Where};
use crate::jump::{condition, label_twice, target};
use stepper_words::heading::Table;
use tables::rows::{INSTRUCTION_WIDTH, Instruction, instruction_at};

// The first row with a fault.
fn find_in<F: Fn(Row, Instruction) -> Option<Where>>(
    instructions: &[u64],
    fault: F,
) -> Option<Where>
    requires { F.IsAlwaysCallable fault }
{
    for number in 0..instructions.len() / INSTRUCTION_WIDTH {
        let row = Row {
            table: Table::Instructions,
            number,
        };
        let found = fault(row, instruction_at(instructions, number));
        if found.is_some() {
            return found;
        }
    }
    None
}

// The first two rows of one label, or else the first jump to a label that is on none.
pub fn find_label(instructions: &[u64]) -> Option<Where> {
    let twice = find_in(instructions, |row, x| label_twice(instructions, row, x));
    let nowhere = find_in(instructions, |row, x| target(instructions, row, x));
    twice.or(nowhere)
}

pub fn find_condition(regions: &[u64], instructions: &[u64]) -> Option<Where> {
    find_in(instructions, |row, x| condition(regions, row, x))
}

pub fn find_conversion(regions: &[u64], instructions: &[u64]) -> Option<Where> {
    find_in(instructions, |row, x| conversion(regions, row, x))
}
