// How long a journal is enough for the desk's program.
use crate::length_tables;
use journal::entries::ENTRY_LIMIT;
use labels::labels::is_jump;
use stepper_desk::state::{Desk, Enough};
use stepper_tables::held::table;
use stepper_words::heading::Table;
use tables::rows::{INSTRUCTION_WIDTH, instruction_at};
use type_rules::error::ProgramError;

fn has_jump(instructions: &[u64]) -> bool {
    let rows = instructions.len() / INSTRUCTION_WIDTH;
    (0..rows).any(|row| is_jump(instruction_at(instructions, row)))
}

// The rows' sum is enough where none of them is a jump.
fn enough(answer: Result<usize, ProgramError>, jumps: bool) -> Enough {
    let Ok(entries) = answer else {
        return Enough::Untold;
    };
    if jumps {
        return Enough::Jumps;
    }
    if entries > ENTRY_LIMIT {
        return Enough::TooMany(entries);
    }
    Enough::Entries(entries)
}

// The tables stay as they were read, so this is asked once a file.
pub fn measure(tables: &[u64], desk: Desk) -> Desk {
    let lengths = desk.lengths;
    let jumps = has_jump(table(tables, Table::Instructions, lengths));
    desk.measured(enough(length_tables(tables, lengths), jumps))
}
