// A row that is no CALL: its outcome, then its writes with their entries.
ghost use Rattle.std.specs.Prelude.{◌≡◌, ◌<◌, length, All};
ghost use Rattle.operands.specs.Reach.{There};
ghost use Rattle.machine.specs.Outcome.{plain_outcome};
ghost use Rattle.machine.specs.Reach.{Opened};
ghost use Rattle.session_forward.specs.Forward.{left};
ghost use Rattle.session_forward.specs.Step.{row_leaves, Placed};

use journal::cells::Write;
use journal::entries::{ENTRY_WIDTH, close, write_cell};
use journal::position::Position;
use machine::outcome::{Writes, plain_outcome};
use session::answer::StepAnswer;
use session::position::has_room;
use tables::refusal::Refusal;
use tables::rows::Instruction;

// A step of these writes, in this order.
fn step_writes(
    cells: &mut [u64],
    journal: &mut [u64],
    p: Position,
    next: usize,
    writes: &[Write],
) -> StepAnswer
    requires placed { Placed (length journal.old) p }
    requires there { All (λ w. There cells.old w.cell) writes.now }
    requires few { length writes.now < 3 }
    ensures { left result cells.new journal.new ≡ row_leaves cells.old journal.old p next (Ok writes.now) }
{
    let used = p.used;
    let row = p.row;
    let changes = writes.len();
    if !has_room(journal.len() / ENTRY_WIDTH, p, changes) {
        return Err((Refusal::JournalFull, p));
    }
    for (i, w) in writes.iter().enumerate() {
        write_cell(cells, journal, used + i, Write { ..*w });
    }
    close(journal, used + changes, changes, row);
    Ok(p.advance(next, changes))
}

// A step that leads to row `next`.
pub fn plain_step(
    regions: &[u64],
    cells: &mut [u64],
    journal: &mut [u64],
    p: Position,
    next: usize,
    x: Instruction,
    reply: &[u64],
) -> StepAnswer
    requires { (Opened regions.now cells.old x) × (Placed (length journal.old) p) }
    ensures { left result cells.new journal.new ≡ row_leaves cells.old journal.old p next (plain_outcome regions.now cells.old x reply.now) }
{
    match plain_outcome(regions, cells, x, reply) {
        Err(refusal) => Err((refusal, p)),
        Ok(Writes::Nothing) => step_writes(cells, journal, p, next, &[]),
        Ok(Writes::One(w)) => step_writes(cells, journal, p, next, &[w]),
        Ok(Writes::Two(v, w)) => step_writes(cells, journal, p, next, &[v, w]),
    }
}
