// The first CALL that does not resolve.
use crate::resolve_row;
use stepper_desk::current::is_call;
use stepper_tables::file::{TABLE_WORDS, TABLES};
use stepper_tables::held::table;
use stepper_told::errors::RESOLVE_WORDS;
use stepper_words::heading::Table;

fn resolves(tables: &[u64; TABLE_WORDS], lengths: [usize; TABLES], row: usize) -> bool {
    let mut rows = [0; RESOLVE_WORDS];
    resolve_row(tables, lengths, row, &mut rows).is_ok()
}

// Whether the row is a CALL that does not resolve.
fn is_bad_call(tables: &[u64; TABLE_WORDS], lengths: [usize; TABLES], row: usize) -> bool {
    is_call(table(tables, Table::Instructions, lengths), row) && !resolves(tables, lengths, row)
}

// The first CALL that does not resolve, or the number of rows.
pub fn first_bad_call(tables: &[u64; TABLE_WORDS], lengths: [usize; TABLES], rows: usize) -> usize {
    (0..rows)
        .find(|&row| is_bad_call(tables, lengths, row))
        .unwrap_or(rows)
}
