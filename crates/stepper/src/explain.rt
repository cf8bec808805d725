// Why open refused a program, in words; a CALL's resolved arguments, or why it does not resolve.
use crate::terminal::Terminal;
use stepper_calls::bad_call::first_bad_call;
use stepper_calls::resolve_row;
use stepper_told::errors::RESOLVE_WORDS;
use stepper_told::refused::explain_tables;
use stepper_told::resolved::show_answer;
use stepper_words::heading::Table;
use tables::refusal::Refusal;
use tables::rows::INSTRUCTION_WIDTH;

// Resolves a row that is a CALL, into `rows`, and shows what came; how many arguments are resolved.
pub fn show_call(terminal: &Terminal, row: usize, rows: &mut [u64; RESOLVE_WORDS]) -> usize {
    let desk = terminal.desk;
    terminal.row_line(row);
    let answer = resolve_row(&terminal.tables, desk.lengths, row, rows);
    show_answer(terminal.source(), &terminal.names, desk.view, rows, answer)
}

// The first CALL that does not resolve. Not inlined: its room would be taken beside the rows that are shown.
#[inline(never)]
fn bad_call(terminal: &Terminal) -> usize {
    let instructions = terminal.table(Table::Instructions);
    first_bad_call(
        &terminal.tables,
        terminal.desk.lengths,
        instructions.len() / INSTRUCTION_WIDTH,
    )
}

// Where open refused the tables, a label, a condition, a conversion or a CALL, with its argument errors where it has some. Not inlined: open would take its room too.
#[inline(never)]
pub fn explain_open(terminal: &Terminal, refusal: Refusal) {
    match refusal {
        Refusal::TableShape
        | Refusal::WordNotAllowed
        | Refusal::NameTwice
        | Refusal::UnfitLabels
        | Refusal::ConditionNotBit
        | Refusal::UnfitConversion => explain_tables(
            terminal.source(),
            &terminal.names,
            &terminal.tables,
            terminal.desk,
            refusal,
        ),
        Refusal::ExternNotFound | Refusal::ArgumentCount => terminal.row_line(bad_call(terminal)),
        Refusal::ArgumentErrors => {
            let mut rows = [0; RESOLVE_WORDS];
            show_call(terminal, bad_call(terminal), &mut rows);
        }
        _ => {}
    }
}
