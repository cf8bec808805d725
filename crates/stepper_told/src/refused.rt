// Where tables that open refused are at fault; a step's refusal; why a run stopped.
use journal::position::Position;
use session::answer::{RunAnswer, StepAnswer, Stop};
use stepper_desk::state::Desk;
use stepper_faults::find::find;
use stepper_faults::tell::tell;
use stepper_lines::print::{counted, number, text};
use stepper_lines::refusal::refused;
use stepper_lines::view::View;
use stepper_tables::file::TABLE_WORDS;
use stepper_tables::held::table;
use stepper_words::heading::Table;
use stepper_words::names::NAME_WORDS;
use tables::refusal::Refusal;

// Where the tables are refused, by 1, 2, 3, 20, 21 or 22.
pub fn explain_tables(
    source: &[u8],
    names: &[u64; NAME_WORDS],
    tables: &[u64; TABLE_WORDS],
    desk: Desk,
    refusal: Refusal,
) {
    let lengths = desk.lengths;
    let found = find(
        refusal,
        table(tables, Table::Regions, lengths),
        table(tables, Table::Externs, lengths),
        table(tables, Table::Parameters, lengths),
        table(tables, Table::Nodes, lengths),
        table(tables, Table::Arguments, lengths),
        table(tables, Table::Instructions, lengths),
    );
    if let Some(at) = found {
        let words = table(tables, at.table(), lengths);
        tell(source, names, desk.view, at, words);
    }
}

// The position that a step leaves, and its refusal in words.
pub fn stepped(answer: StepAnswer, view: View) -> Position {
    match answer {
        Ok(position) => position,
        Err((refusal, position)) => {
            refused(refusal, view);
            position
        }
    }
}

// Why a run stopped before that row.
fn stopped(stop: Stop, row: usize, view: View) {
    match stop {
        Stop::Allowance => text(b"the allowance is used up\n"),
        Stop::End => text(b"the program is at its end\n"),
        Stop::Call => {
            text(b"row ");
            number(row as u64);
            text(b" is a CALL, and forward asks for its reply\n")
        }
        Stop::Refusal(refusal) => {
            text(b"row ");
            number(row as u64);
            text(b" is refused\n");
            refused(refusal, view)
        }
    }
}

// The position that a run leaves; its steps and why no more, or its refusal in words.
pub fn ran(answer: RunAnswer, view: View) -> Position {
    match answer {
        Ok((steps, stop, position)) => {
            text(b"ran ");
            counted(steps, b"step");
            text(b": ");
            stopped(stop, position.row, view);
            position
        }
        Err((refusal, position)) => {
            refused(refusal, view);
            position
        }
    }
}
