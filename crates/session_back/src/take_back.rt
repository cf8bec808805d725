// Back on the cells: the looks from 19 on, and the entries restored.
ghost use Rattle.std.specs.Prelude.{◌≡◌, ◌/◌, length};
ghost use Rattle.journal.specs.Cells.{cell_width};
ghost use Rattle.session_back.specs.Back.{taken_back, backed};
ghost use Rattle.session_back.specs.TakeBack.{take_back_look};

use journal::cells::CELL_WIDTH;
use journal::entries::{ENTRY_WIDTH, changes_at, row_left_at};
use journal::position::Position;
use journal::restore::{readable, undo};
use session::answer::StepAnswer;
use session::position::position_fits;
use tables::refusal::Refusal;
use tables::rows::INSTRUCTION_WIDTH;

fn look_back(
    instructions: &[u64],
    cells: usize,
    journal: &[u64],
    p: Position,
) -> Result<usize, Refusal>
    ensures { result ≡ take_back_look instructions.now cells journal.now p }
{
    let done = p.done;
    let used = p.used;
    if !position_fits(instructions, journal.len() / ENTRY_WIDTH, p) {
        return Err(Refusal::ForeignPosition);
    }
    if done == 0 {
        return Err(Refusal::NothingToTakeBack);
    }
    if used == 0 {
        return Err(Refusal::ForeignPosition);
    }
    let changes = changes_at(journal, used - 1);
    if used <= changes {
        return Err(Refusal::ForeignPosition);
    }
    if !readable(journal, used - (changes + 1), changes, cells) {
        return Err(Refusal::ForeignPosition);
    }
    if instructions.len() / INSTRUCTION_WIDTH <= row_left_at(journal, used - 1) {
        return Err(Refusal::ForeignPosition);
    }
    Ok(changes)
}

pub fn take_back(
    instructions: &[u64],
    cells: &mut [u64],
    journal: &[u64],
    p: Position,
) -> StepAnswer
    ensures { backed result cells.new ≡ taken_back cells.old journal.now p (take_back_look instructions.now (length cells.old / cell_width) journal.now p) }
{
    let used = p.used;
    match look_back(instructions, cells.len() / CELL_WIDTH, journal, p) {
        Err(refusal) => Err((refusal, p)),
        Ok(changes) => {
            undo(cells, journal, used - (changes + 1), changes);
            let row = row_left_at(journal, used - 1);
            Ok(p.retreat(row, changes))
        }
    }
}
