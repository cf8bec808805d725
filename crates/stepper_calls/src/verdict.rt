// The verdict of the type check, in words.
use crate::check_tables;
use crate::looked::looked_line;
use stepper_desk::state::Desk;
use stepper_lines::print::text;
use stepper_lines::refusal::refused;
use stepper_tables::file::TABLES;
use stepper_told::errors::type_error;
use tables::refusal::Refusal;
use type_rules::error::{ProgramError, TypeError};

// A type error; of one in a frame also how many nodes were looked at.
pub fn error_lines(tables: &[u64], lengths: [usize; TABLES], error: TypeError) {
    type_error(error);
    looked_line(tables, lengths, error.row as usize);
}

pub fn check_key(tables: &[u64], desk: Desk) {
    match check_tables(tables, desk.lengths) {
        Ok(()) => text(b"accepted by the type check\n"),
        Err(ProgramError::Refused(refusal)) => refused(refusal, desk.view),
        Err(ProgramError::Type(error)) => {
            refused(Refusal::TypeError, desk.view);
            error_lines(tables, desk.lengths, error)
        }
    }
}
