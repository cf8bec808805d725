// What a student knows a table, a row and a name by.
use crate::fault::Row;
use script::line::part;
use stepper_lines::print::{byte, number, text};
use stepper_words::heading::{HEADINGS, Table};
use stepper_words::list::{item, line_of};
use stepper_words::names::{NAME_WORDS, place_of};
use stepper_words::place::ROW_WORDS;
use stepper_words::vocabulary::{MNEMONICS, NODES};

// What is shown of a longer name.
const NAME_BYTES: usize = 24;

// The file's text, the places of its names, and how many names have a text.
#[derive(Clone, Copy)]
pub struct Names<'a> {
    pub source: &'a [u8],
    pub places: &'a [u64; NAME_WORDS],
    pub count: usize,
}

impl Names<'_> {
    // Writes a name.
    pub fn show(self, n: u64) {
        if n >= self.count as u64 {
            byte(b'#');
            number(n);
            return;
        }
        let place = place_of(self.places, n as usize);
        let whole = part(self.source, place.start, place.end);
        text(part(whole, 0, NAME_BYTES));
        if whole.len() > NAME_BYTES {
            text(b"..");
        }
    }
}

pub fn heading(table: Table) {
    text(item(&HEADINGS, table.number() as u64));
}

fn in_brackets(word: &[u8]) {
    if !word.is_empty() {
        text(b" (");
        text(word);
        byte(b')');
    }
}

// What a student knows a row by: its name, tag or mnemonic.
fn known_by(names: Names, table: Table, words: [u64; ROW_WORDS]) {
    match table {
        Table::Nodes => in_brackets(item(&NODES, words[0])),
        Table::Arguments => {}
        Table::Instructions => in_brackets(item(line_of(&MNEMONICS, words[0]), words[1])),
        _ => {
            text(b" (");
            names.show(words[0]);
            byte(b')')
        }
    }
}

pub fn row_head(names: Names, row: Row, words: [u64; ROW_WORDS]) {
    heading(row.table);
    text(b", row ");
    number(row.number as u64);
    known_by(names, row.table, words);
}
