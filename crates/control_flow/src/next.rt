// Where a row leads, by the cells before its step.
ghost use Rattle.std.specs.Prelude.{◌≡◌, cond, ◌+◌, ◌^◌, ◌<◌};
ghost use Rattle.tables.specs.Rows.{instruction_rows};
ghost use Rattle.labels.specs.Targets.{Targets};
ghost use Rattle.operands.specs.Cells.{cell_word};
ghost use Rattle.operands.specs.Reach.{Layout, There};
ghost use Rattle.control_flow.specs.Next.{condition_word, next_row};

use journal::cells::CELL_WIDTH;
use operands::address::index_cell;
use tables::family;
use tables::lookup::lookup_region;
use tables::rows::{INSTRUCTION_WIDTH, Instruction, instruction_at};

// The word of cell c.
fn word_at(cells: &[u64], c: usize) -> u64
    requires { There cells.now c }
    ensures { result ≡ cell_word cells.now c }
{
    cells[CELL_WIDTH * c + 1]
}

// The word of a row's condition; of a row that has none, it does not matter.
fn condition_word(regions: &[u64], cells: &[u64], x: Instruction) -> u64
    requires { Layout regions.now cells.now }
    ensures { result ≡ condition_word regions.now cells.now x }
{
    let Some(r) = lookup_region(regions, x.first_name) else {
        return 0;
    };
    let Ok(c) = index_cell(regions, r, x.first_index) else {
        return 0;
    };
    word_at(cells, c)
}

// A taken jump's target, or the next row.
fn jump_row(taken: bool, target: usize, row: usize) -> usize
    requires { row + 1 < 2 ^ 64 }
    ensures { result ≡ cond taken target (row + 1) }
{
    if taken {
        return target;
    }
    row + 1
}

// The jumps' targets were found before.
#[tactic(auto, unfolding(crate::specs::Next::next_row, tables::specs::Cases::case_of))]
pub fn next_row(
    regions: &[u64],
    instructions: &[u64],
    targets: &[u16],
    cells: &[u64],
    row: usize,
) -> usize
    requires { Layout regions.now cells.now × (row < instruction_rows instructions.now) × Targets instructions.now targets.now (instruction_rows instructions.now) }
    ensures { result ≡ next_row regions.now instructions.now cells.now row }
{
    let x = instruction_at(instructions, row);
    let family = x.family;
    match family {
        family::JUMP => targets[row] as usize,
        family::JUMP_WHEN => {
            let word = condition_word(regions, cells, x);
            jump_row(word == 1, targets[row] as usize, row)
        }
        family::JUMP_UNLESS => {
            let word = condition_word(regions, cells, x);
            jump_row(word == 0, targets[row] as usize, row)
        }
        family::HALT => instructions.len() / INSTRUCTION_WIDTH,
        _ => row + 1,
    }
}
