// A file into the six tables, line by line.
ghost use Rattle.std.specs.Prelude.{◌≤◌};

use crate::row::{Row, Trouble, has_comment, read_row};
use crate::word::Fault;
use script::line::{Line, Word, line_at, part, word_at};
use stepper_words::heading::{Heading, Table, heading_of};
use stepper_words::names::NAME_WORDS;
use stepper_words::place::ROW_WORDS;

pub const TABLES: usize = 6;

// Words of room for each table, more than any limit allows. The six lie one after the other.
pub const ROOM: usize = 6200;

pub const TABLE_WORDS: usize = TABLES * ROOM;

const DEFAULT_ENTRIES: usize = 64;

// What was read so far: the heading under which rows stand, the line, its last word and whether it is taken, the names as texts, whether there are names as numbers, the tables' lengths in words, the words of memory that are asked for, if any, and the journal's entries.
#[derive(Clone, Copy)]
pub struct Reader {
    pub heading: Heading,
    pub line: usize,
    pub word: Word,
    pub outcome: Result<(), Trouble>,
    pub names: usize,
    pub numbered: bool,
    pub lengths: [usize; TABLES],
    pub memory: Option<usize>,
    pub entries: usize,
}

// What reads a file: its text, the names and tables that it fills, and how far it is.
#[derive(Drop)]
struct Filler<'a> {
    text: &'a [u8],
    names: &'a mut [u64; NAME_WORDS],
    tables: &'a mut [u64; TABLE_WORDS],
    reader: Reader,
}

impl Filler<'_> {
    // The row's words at the end of a table.
    fn append(&mut self, table: Table, row: Row) -> Result<(), Trouble>
        requires { row.count ≤ 16 }
    {
        let number = table.number();
        let length = self.reader.lengths[number];
        if length > ROOM - ROW_WORDS {
            return Err(Trouble::TooManyRows);
        }
        let first = number * ROOM + length;
        let tables = &mut *self.tables;
        tables[first..first + ROW_WORDS].copy_from_slice(&row.words);
        self.reader.lengths[number] = length + row.count;
        Ok(())
    }

    // Words of the table whose heading came last: a whole row, or as many as there are.
    fn table_words(&mut self, whole: bool, row: Row) -> Result<(), Trouble>
        requires { row.count ≤ 16 }
    {
        let Heading::Of(table) = self.reader.heading else {
            return Err(Trouble::NoHeading);
        };
        if whole && row.count != table.width() {
            return Err(Trouble::RowOf(table));
        }
        self.append(table, row)
    }

    // Words as they are: one in a name's place would mean whichever text came at that place, so a file has these or names as texts.
    fn loose_words(&mut self, row: Row) -> Result<(), Trouble>
        requires { row.count ≤ 16 }
    {
        if self.reader.names > 0 {
            return Err(Trouble::LooseWords);
        }
        self.reader.numbered = true;
        self.table_words(false, row)
    }

    // A line that is no table's.
    fn setting(&mut self, heading: Heading, row: Row) -> Result<(), Trouble> {
        if row.count != heading.width() {
            return Err(Trouble::Count);
        }
        match heading {
            Heading::Memory => self.reader.memory = Some(row.words[0] as usize),
            Heading::Journal => self.reader.entries = row.words[0] as usize,
            _ => {}
        }
        Ok(())
    }

    // A table's heading stands alone.
    fn table_heading(&mut self, table: Table, at: usize, end: usize) -> Result<(), Trouble> {
        let more = word_at(self.text, at, end);
        if more.start < more.end {
            return Err(Trouble::NotAlone);
        }
        self.reader.heading = Heading::Of(table);
        Ok(())
    }

    // A row, or a line that begins with a heading and has words.
    fn read_words(&mut self, heading: Heading, at: usize, end: usize) -> Result<(), Trouble> {
        let current = self.reader.heading;
        if heading.fills_table() && current.is_nothing() {
            return Err(Trouble::NoHeading);
        }
        // The heading whose words stand on the line.
        let under = if heading.is_nothing() {
            current
        } else {
            heading
        };
        let known = self.reader.names;
        let numbered = self.reader.numbered;
        let row = read_row(self.text, self.names, under, at, end, known, numbered);
        self.reader.word = row.word;
        self.reader.names = row.names;
        self.reader.numbered = row.numbered;
        row.outcome?;
        match heading {
            Heading::Loose => self.loose_words(row),
            Heading::Nothing => self.table_words(true, row),
            _ => self.setting(heading, row),
        }
    }

    fn read_line(&mut self, line: Line) -> Result<(), Trouble> {
        let word = word_at(self.text, line.start, line.end);
        if word.start >= word.end {
            return Ok(());
        }
        self.reader.word = word;
        if has_comment(self.text, word) {
            return Err(Trouble::Word(Fault::Comment));
        }
        let heading = heading_of(part(self.text, word.start, word.end));
        match heading {
            Heading::Of(table) => self.table_heading(table, word.end, line.end),
            // A row begins with the line's first word, any other line after it.
            Heading::Nothing => self.read_words(heading, word.start, line.end),
            _ => self.read_words(heading, word.end, line.end),
        }
    }

    // Up to the first line that is not taken. No line is shorter than a byte.
    fn read_lines(&mut self) -> Result<(), Trouble> {
        let mut at = 0;
        for number in 1..=self.text.len() {
            if at >= self.text.len() {
                break;
            }
            let line = line_at(self.text, at);
            self.reader.line = number;
            self.read_line(line)?;
            at = line.next;
        }
        Ok(())
    }
}

// Reads up to the first line that is not taken.
pub fn read_file(
    text: &[u8],
    names: &mut [u64; NAME_WORDS],
    tables: &mut [u64; TABLE_WORDS],
) -> Reader {
    let mut filler = Filler {
        text,
        names,
        tables,
        reader: Reader {
            heading: Heading::Nothing,
            line: 0,
            word: Word { start: 0, end: 0 },
            outcome: Ok(()),
            names: 0,
            numbered: false,
            lengths: [0; TABLES],
            memory: None,
            entries: DEFAULT_ENTRIES,
        },
    };
    let outcome = filler.read_lines();
    Reader {
        outcome,
        ..filler.reader
    }
}
