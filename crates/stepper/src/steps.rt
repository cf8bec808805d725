// What the keys do to the session: open, and forward with a reply.
use crate::explain::{explain_open, show_call};
use crate::terminal::Terminal;
use journal::position::Position;
use script::line::part;
use session::answer::OpenAnswer;
use stepper_calls::open_tables;
use stepper_calls::step::forward_with;
use stepper_calls::verdict::error_lines;
use stepper_desk::current::is_call;
use stepper_desk::key::{is_open, no_file};
use stepper_desk::plant::plant_lent;
use stepper_desk::state::{JOURNAL_WORDS, MEMORY_WORDS, State};
use stepper_lines::print::text;
use stepper_lines::refusal::refused;
use stepper_told::errors::RESOLVE_WORDS;
use stepper_told::reply::{REPLY_WORDS, ask_reply};
use stepper_words::heading::Table;
use tables::refusal::Refusal;
use type_rules::error::ProgramError;

// What open answered, in words.
fn opened(terminal: &Terminal, answer: OpenAnswer) -> State {
    let desk = terminal.desk;
    match answer {
        Ok(_) => State::Opened,
        Err(ProgramError::Refused(refusal)) => {
            refused(refusal, desk.view);
            explain_open(terminal, refusal);
            State::Refused(refusal)
        }
        Err(ProgramError::Type(error)) => {
            refused(Refusal::TypeError, desk.view);
            terminal.row_line(error.row as usize);
            error_lines(&terminal.tables, desk.lengths, error);
            State::Refused(Refusal::TypeError)
        }
    }
}

fn open_lent(terminal: &mut Terminal) {
    let desk = terminal.desk;
    let words = desk.memory.min(MEMORY_WORDS);
    let entries = desk.journal.min(JOURNAL_WORDS);
    let memory = &mut terminal.memory[..];
    let answer = open_tables(
        &terminal.tables,
        desk.lengths,
        &mut memory[..words],
        &terminal.journal[..entries],
    );
    let state = opened(terminal, answer);
    terminal.desk = desk.stated(state).placed(Position::first());
}

// Opens the program that was read.
pub fn reset(terminal: &mut Terminal) {
    if !terminal.desk.has_file() {
        no_file();
        return;
    }
    open_lent(terminal);
    let desk = terminal.desk;
    if desk.is_opened() {
        terminal.desk = plant_lent(
            part(&terminal.buffer, 0, desk.text),
            &mut terminal.names,
            desk,
            &mut terminal.memory,
            &mut terminal.journal,
        );
    }
}

// The words of the reply, none where the current row is no CALL; or nothing, where the input's end cut it short.
fn reply_for(terminal: &Terminal, reply: &mut [u64; REPLY_WORDS]) -> Option<usize> {
    let row = terminal.desk.position.row;
    if is_call(terminal.table(Table::Instructions), row) {
        let mut rows = [0; RESOLVE_WORDS];
        let count = show_call(terminal, row, &mut rows);
        return ask_reply(&rows, count, reply, terminal.desk.view);
    }
    Some(0)
}

// Not inlined: the other keys would take a reply's room too.
#[inline(never)]
pub fn forward_key(terminal: &mut Terminal) {
    let desk = terminal.desk;
    if !is_open(desk) {
        return;
    }
    let mut reply = [0; REPLY_WORDS];
    let Some(length) = reply_for(terminal, &mut reply) else {
        text(b"no reply, so no step\n");
        return;
    };
    terminal.desk = forward_with(
        &terminal.tables,
        desk,
        &mut terminal.memory,
        &mut terminal.journal,
        &reply[..length.min(REPLY_WORDS)],
    );
}
