// What the terminal holds: the file's text, its names and tables, the cells before the last step and now, the journal, and the desk beside them.
use script::line::part;
use stepper_desk::current;
use stepper_desk::state::{Desk, JOURNAL_WORDS, MEMORY_WORDS, TEXT_BYTES};
use stepper_screen::screen;
use stepper_tables::file::TABLE_WORDS;
use stepper_tables::held;
use stepper_words::heading::Table;
use stepper_words::names::NAME_WORDS;

#[derive(Drop)]
pub struct Terminal {
    pub buffer: [u8; TEXT_BYTES],
    pub names: [u64; NAME_WORDS],
    pub tables: [u64; TABLE_WORDS],
    pub before: [u64; MEMORY_WORDS],
    pub memory: [u64; MEMORY_WORDS],
    pub journal: [u64; JOURNAL_WORDS],
    pub desk: Desk,
}

impl Terminal {
    // The file's text.
    pub fn source(&self) -> &[u8] {
        part(&self.buffer, 0, self.desk.text)
    }

    // The words of one of the six tables.
    pub fn table(&self, which: Table) -> &[u64] {
        held::table(&self.tables, which, self.desk.lengths)
    }

    // The row as on the screen.
    pub fn row_line(&self, row: usize) {
        current::this_row(self.source(), &self.names, &self.tables, self.desk, row);
    }

    pub fn show(&self) {
        screen::show(
            &self.buffer,
            &self.names,
            &self.tables,
            &self.before,
            &self.memory,
            self.desk,
        );
    }
}
