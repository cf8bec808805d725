// How many nodes of a frame's expression the type check looked at.
use crate::frame_row;
use console::frame::FrameError;
use stepper_desk::current::row_at;
use stepper_lines::print::{counted, number, text};
use stepper_tables::file::TABLES;
use stepper_tables::held::table;
use stepper_words::heading::Table;

fn looked(count: u64, nodes: u64) {
    text(b"  the type check looked at ");
    number(count);
    text(b" of ");
    counted(nodes, b"node");
    text(b"\n");
}

// A line, where the row is a frame of tables that the loader takes; else nothing.
pub fn looked_line(tables: &[u64], lengths: [usize; TABLES], row: usize) {
    let Some(x) = row_at(table(tables, Table::Instructions, lengths), row) else {
        return;
    };
    match frame_row(tables, lengths, row) {
        Ok(count) | Err(FrameError::Type(_, count)) => looked(count, x.first_index),
        Err(FrameError::Refused(_)) => {}
    }
}
