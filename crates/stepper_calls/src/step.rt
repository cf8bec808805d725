// A step or a run of the desk's session.
use crate::{run_steps, step_back, step_forward};
use stepper_desk::key::is_open;
use stepper_desk::state::Desk;
use stepper_tables::file::TABLE_WORDS;
use stepper_told::refused::{ran, stepped};

// A step forward, with the words of the reply.
pub fn forward_with(
    tables: &[u64; TABLE_WORDS],
    desk: Desk,
    memory: &mut [u64],
    journal: &mut [u64],
    reply: &[u64],
) -> Desk {
    let words = desk.memory.min(memory.len());
    let entries = desk.journal.min(journal.len());
    let answer = step_forward(
        tables,
        desk.lengths,
        &mut memory[..words],
        &mut journal[..entries],
        desk.position,
        reply,
    );
    desk.placed(stepped(answer, desk.view))
}

pub fn run_key(
    tables: &[u64],
    desk: Desk,
    memory: &mut [u64],
    journal: &mut [u64],
    allowance: u64,
) -> Desk {
    let words = desk.memory.min(memory.len());
    let entries = desk.journal.min(journal.len());
    if !is_open(desk) {
        return desk;
    }
    let answer = run_steps(
        tables,
        desk.lengths,
        &mut memory[..words],
        &mut journal[..entries],
        desk.position,
        allowance,
    );
    desk.placed(ran(answer, desk.view))
}

pub fn back_key(tables: &[u64], desk: Desk, memory: &mut [u64], journal: &[u64]) -> Desk {
    let words = desk.memory.min(memory.len());
    let entries = desk.journal.min(journal.len());
    if !is_open(desk) {
        return desk;
    }
    let answer = step_back(
        tables,
        desk.lengths,
        &mut memory[..words],
        &journal[..entries],
        desk.position,
    );
    desk.placed(stepped(answer, desk.view))
}
