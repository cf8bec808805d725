// The journal entries that are counted for a row, and their sum over a program.
ghost use Rattle.std.specs.Prelude.{◌≡◌, ◌≤◌};
ghost use Rattle.tables.specs.Rows.{instruction_rows, instruction_limit};
ghost use Rattle.session_length.specs.Entries.{entries_for, journal_length};

use tables::family;
use tables::rows::{INSTRUCTION_WIDTH, instruction_at};

fn entries_for(family: u64) -> usize
    ensures { result ≡ entries_for family }
{
    match family {
        family::EXCHANGE => 3,
        family::FRAME => 1,
        family::CALL => 65,
        family::OTHER => 1,
        _ => 2,
    }
}

// A loaded program has at most 512 rows, so the sum cannot wrap.
pub fn journal_entries(instructions: &[u64]) -> usize
    requires { instruction_rows instructions.now ≤ instruction_limit }
    ensures { result ≡ journal_length instructions.now }
{
    let rows = instructions.len() / INSTRUCTION_WIDTH;
    let mut entries = 0;
    for row in 0..rows {
        let x = instruction_at(instructions, row);
        entries += entries_for(x.family);
    }
    entries
}
