// The words of one line.
ghost use Rattle.std.specs.Prelude.{◌≤◌};

use crate::word::{Fault, Value, read_word};
use script::line::{Word, byte_at, part, word_at};
use stepper_words::heading::{Heading, Table};
use stepper_words::names::{MOST_NAMES, NAME_WORDS, keep, known};
use stepper_words::place::{Place, ROW_WORDS, place_of};
use words::kind::REAL;

// Why a line is not taken. A row of another number of words than its table's has the table.
#[derive(Clone, Copy)]
pub enum Trouble {
    Word(Fault),
    RowOf(Table),
    Count,
    NoHeading,
    NotAlone,
    TooManyRows,
    TooManyNames,
    NamesAreTexts,
    NamesAreNumbers,
    LooseWords,
}

impl From<Fault> for Trouble {
    fn from(fault: Fault) -> Trouble {
        Trouble::Word(fault)
    }
}

// The words, how many, how many names are known as texts after them, whether a name was written as a number, the word of the text that was read last, and whether all is taken.
#[derive(Clone, Copy)]
pub struct Row {
    pub words: [u64; ROW_WORDS],
    pub count: usize,
    pub names: usize,
    pub numbered: bool,
    pub word: Word,
    pub outcome: Result<(), Trouble>,
}

// A label's name, without its `@`.
fn unmarked(word: Word) -> Word {
    Word {
        start: word.start.wrapping_add(1),
        end: word.end,
    }
}

// The word of a cell is a REAL where the cell's kind is.
fn cell_place(kind: u64, column: usize) -> Place {
    match column {
        1 => Place::Kind,
        2 if kind == REAL => Place::Real,
        _ => Place::Whole,
    }
}

fn place_under(heading: Heading, words: [u64; ROW_WORDS], column: usize) -> Place {
    match heading {
        Heading::Of(table) => place_of(table, words, column),
        Heading::Cell => cell_place(words[1], column),
        _ => Place::Whole,
    }
}

// Whether a comment begins in the middle of a word.
pub fn has_comment(text: &[u8], word: Word) -> bool {
    byte_at(text, word.end) == b'#'
}

impl Row {
    fn push(&mut self, word: u64) -> Result<(), Trouble>
        requires { self.old.count ≤ 16 }
        ensures { self.new.count ≤ 16 }
    {
        if self.count >= ROW_WORDS {
            return Err(Trouble::Count);
        }
        self.words[self.count] = word;
        self.count += 1;
        Ok(())
    }

    // A name as a number: in a file whose names are texts it would mean whichever text came at that place.
    fn push_number(&mut self, name: u64) -> Result<(), Trouble>
        requires { self.old.count ≤ 16 }
        ensures { self.new.count ≤ 16 }
    {
        if self.names > 0 {
            return Err(Trouble::NamesAreTexts);
        }
        self.numbered = true;
        self.push(name)
    }

    // A name gets the number that it has, or the next one.
    fn push_name(
        &mut self,
        text: &[u8],
        names: &mut [u64; NAME_WORDS],
        word: Word,
    ) -> Result<(), Trouble>
        requires { self.old.count ≤ 16 }
        ensures { self.new.count ≤ 16 }
    {
        if self.numbered {
            return Err(Trouble::NamesAreNumbers);
        }
        let n = known(text, names, self.names, part(text, word.start, word.end));
        if n >= self.names {
            if n >= MOST_NAMES {
                return Err(Trouble::TooManyNames);
            }
            keep(names, n, word);
            self.names = n + 1;
        }
        self.push(n as u64)
    }

    fn add(
        &mut self,
        text: &[u8],
        names: &mut [u64; NAME_WORDS],
        heading: Heading,
        word: Word,
    ) -> Result<(), Trouble>
        requires { self.old.count ≤ 16 }
        ensures { self.new.count ≤ 16 }
    {
        self.word = word;
        if has_comment(text, word) {
            return Err(Trouble::Word(Fault::Comment));
        }
        let place = place_under(heading, self.words, self.count);
        match read_word(part(text, word.start, word.end), place)? {
            Value::One(first) => self.push(first),
            Value::Two(first, second) => {
                self.push(first)?;
                self.push(second)
            }
            Value::Name => self.push_name(text, names, word),
            Value::Label => self.push_name(text, names, unmarked(word)),
            Value::Numbered(n) => self.push_number(n),
        }
    }
}

// The words from `at` on, before `end`, under a heading.
pub fn read_row(
    text: &[u8],
    names: &mut [u64; NAME_WORDS],
    heading: Heading,
    at: usize,
    end: usize,
    known_names: usize,
    numbered: bool,
) -> Row
    ensures { result.count ≤ 16 }
{
    let mut row = Row {
        words: [0; ROW_WORDS],
        count: 0,
        names: known_names,
        numbered,
        word: Word { start: 0, end: 0 },
        outcome: Ok(()),
    };
    let mut place = at;
    'words: for _ in 0..=ROW_WORDS {
        let word = word_at(text, place, end);
        if word.start >= word.end {
            break;
        }
        row.outcome = row.add(text, names, heading, word);
        if row.outcome.is_err() {
            break;
        }
        place = word.end;
    }
    row
}
