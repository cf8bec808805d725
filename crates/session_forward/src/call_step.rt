// A CALL: the reply is judged whole, then each of its rows is a write with its entry.
ghost use Rattle.std.specs.Prelude.{◌≡◌, List, ◌+◌, ◌*◌, ◌≤◌, ◌<◌, length, Ok};
ghost use Rattle.extern_call.specs.Call.{CallRanges};
ghost use Rattle.journal.specs.Cells.{put, held, applied};
ghost use Rattle.journal.specs.Entries.{entry_width, words_of, entered, journaled};
ghost use Rattle.call_reply.specs.Call.{reply_rows, reply_write, reply_writes, call_outcome};
ghost use Rattle.operands.specs.Reach.{Layout};
ghost use Rattle.call_reply.specs.Reach.{Replied};
ghost use Rattle.session_forward.specs.Forward.{left};
ghost use Rattle.session_forward.specs.Step.{row_leaves, Placed, Replying};

use call_reply::call::{judge_call, reply_write};
use call_reply::reply::REPLY_WIDTH;
use extern_call::call::ExternCall;
use journal::entries::{ENTRY_WIDTH, close, write_cell};
use journal::position::Position;
use session::answer::StepAnswer;
use session::position::has_room;
use tables::refusal::Refusal;
use tables::rows::Instruction;

// The write of the reply's row k, with its entry.
fn write_row(
    regions: &[u64],
    parameters: &[u64],
    arguments: &[u64],
    call: ExternCall,
    cells: &mut [u64],
    journal: &mut [u64],
    entry: usize,
    reply: &[u64],
    k: usize,
)
    requires { (Layout regions.now cells.old) × (Replied regions.now parameters.now arguments.now call reply.now k) × (entry_width * entry + 2 < length journal.old) }
    ensures cells_after { cells.new ≡ put cells.old (reply_write regions.now parameters.now arguments.now call reply.now k) }
    ensures journal_after { journal.new ≡ entered journal.old entry (words_of (held cells.old (reply_write regions.now parameters.now arguments.now call reply.now k).cell)) }
{
    let w = reply_write(regions, parameters, arguments, call, reply, k);
    write_cell(cells, journal, entry, w);
}

// A step of one write for each row of the reply, in order, with its closing entry.
fn write_reply(
    regions: &[u64],
    parameters: &[u64],
    arguments: &[u64],
    call: ExternCall,
    cells: &mut [u64],
    journal: &mut [u64],
    used: usize,
    row: usize,
    reply: &[u64],
)
    requires { (Replying regions.now parameters.now arguments.now call cells.old reply.now) × (entry_width * (used + (reply_rows reply.now + 1)) ≤ length journal.old) }
    ensures cells_after { cells.new ≡ applied cells.old (reply_writes regions.now parameters.now arguments.now call reply.now) }
    ensures journal_after { journal.new ≡ journaled journal.old used row cells.old (reply_writes regions.now parameters.now arguments.now call reply.now) }
{
    let rows = reply.len() / REPLY_WIDTH;
    for k in 0..rows {
        write_row(
            regions,
            parameters,
            arguments,
            call,
            cells,
            journal,
            used + k,
            reply,
            k,
        );
    }
    close(journal, used + rows, rows, row);
}

// The writes of a judged reply, where the journal has room for them.
fn reply_step(
    regions: &[u64],
    parameters: &[u64],
    arguments: &[u64],
    call: ExternCall,
    cells: &mut [u64],
    journal: &mut [u64],
    p: Position,
    next: usize,
    reply: &[u64],
) -> StepAnswer
    requires { (Replying regions.now parameters.now arguments.now call cells.old reply.now) × (Placed (length journal.old) p) }
    ensures { left result cells.new journal.new ≡ row_leaves cells.old journal.old p next (Ok (reply_writes regions.now parameters.now arguments.now call reply.now)) }
{
    let used = p.used;
    let row = p.row;
    let rows = reply.len() / REPLY_WIDTH;
    if !has_room(journal.len() / ENTRY_WIDTH, p, rows) {
        return Err((Refusal::JournalFull, p));
    }
    write_reply(
        regions, parameters, arguments, call, cells, journal, used, row, reply,
    );
    Ok(p.advance(next, rows))
}

// A step that leads to row `next`.
pub fn call_step(
    regions: &[u64],
    externs: &[u64],
    parameters: &[u64],
    arguments: &[u64],
    cells: &mut [u64],
    journal: &mut [u64],
    p: Position,
    next: usize,
    x: Instruction,
    reply: &[u64],
) -> StepAnswer
    requires { (Layout regions.now cells.old) × (CallRanges externs.now parameters.now arguments.now x) × (Placed (length journal.old) p) }
    ensures { left result cells.new journal.new ≡ row_leaves cells.old journal.old p next (call_outcome regions.now externs.now parameters.now arguments.now x reply.now) }
{
    match judge_call(regions, externs, parameters, arguments, x, reply) {
        Err(refusal) => Err((refusal, p)),
        Ok(call) => reply_step(
            regions, parameters, arguments, call, cells, journal, p, next, reply,
        ),
    }
}
