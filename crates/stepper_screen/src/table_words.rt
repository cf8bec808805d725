// The six tables as words, for a host that takes them: each heading, then a row a line, in decimal.
ghost use Rattle.std.specs.Prelude.{◌<◌};

use std::rt::{Env, Files};
use stepper_desk::load::{absent, load, read_bytes};
use stepper_desk::state::{Desk, TEXT_BYTES};
use stepper_lines::print::{byte, number, text};
use stepper_tables::file::{TABLE_WORDS, TABLES};
use stepper_tables::held::table;
use stepper_words::heading::{HEADINGS, Table};
use stepper_words::list::item;
use stepper_words::names::NAME_WORDS;

fn rows(words: &[u64], width: usize)
    requires { 0 < width }
{
    for row in words.chunks(width) {
        for (i, &word) in row.iter().enumerate() {
            if i > 0 {
                byte(b' ');
            }
            number(word);
        }
        byte(b'\n');
    }
}

fn table_rows(tables: &[u64; TABLE_WORDS], which: Table, lengths: [usize; TABLES]) {
    text(item(&HEADINGS, which.number() as u64));
    byte(b'\n');
    rows(table(tables, which, lengths), which.width());
}

// The tables of the file that the second argument names. Not inlined: its room would be taken in every other use of the program too.
#[inline(never)]
pub fn table_words(rt: &(impl Env + Files), desk: Desk) {
    let mut path = io::buffer();
    let length = rt.arg(2, &mut path).unwrap_or(0);
    let mut buffer = [0; TEXT_BYTES];
    let mut names = [0; NAME_WORDS];
    let mut tables = [0; TABLE_WORDS];
    let count = read_bytes(rt, &path[..length], &mut buffer);
    if count == 0 {
        absent(&path[..length]);
        return;
    }
    let loaded = load(
        &path[..length],
        &buffer,
        count,
        &mut names,
        &mut tables,
        desk,
    );
    let lengths = loaded.lengths;
    if loaded.has_file() {
        for which in [
            Table::Regions,
            Table::Externs,
            Table::Parameters,
            Table::Nodes,
            Table::Arguments,
            Table::Instructions,
        ] {
            table_rows(&tables, which, lengths);
        }
    }
}
