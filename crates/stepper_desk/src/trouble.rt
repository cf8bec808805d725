// Why a line of a file is not taken: its number, its word and what to write.
use crate::state::{Desk, State};
use script::line::part;
use stepper_lines::print::{byte, number, style, text};
use stepper_tables::file::Reader;
use stepper_tables::row::Trouble;
use stepper_tables::word::Fault;
use stepper_words::heading::Table;
use stepper_words::list::{item, line_of};
use stepper_words::place::Place;
use stepper_words::vocabulary::MNEMONICS;

// Bytes of a word that are shown: any text may be in the file.
const MOST_SHOWN: usize = 24;

fn printable(byte: u8) -> u8 {
    match byte {
        b'!'..=b'~' => byte,
        _ => b'?',
    }
}

fn word_text(word: &[u8]) {
    for shown in word.iter().take(MOST_SHOWN) {
        byte(printable(*shown));
    }
    if word.len() > MOST_SHOWN {
        text(b"..");
    }
}

// What a place needs.
fn needed(place: Place) -> &'static [u8] {
    match place {
        Place::Name => b"a name",
        Place::Label => b"a label",
        Place::Kind => b"a kind",
        Place::ReturnKind => b"a return kind",
        Place::Mutability => b"mutable or immutable",
        Place::Shape => b"a shape",
        Place::Tag => b"a tag",
        Place::Form => b"a form",
        Place::Operation => b"an operation",
        Place::Operator => b"the operator's number",
        Place::SourceForm => b"a source form",
        Place::Whole => b"a whole number",
        Place::Real => b"a REAL",
        Place::Unused => b"-",
    }
}

// What a place allows, where its name does not say it.
fn allowed(place: Place) -> &'static [u8] {
    match place {
        Place::Name => b": letters, digits, _ and -, a letter first",
        Place::Label => b": @ and a name, as @again",
        Place::Kind => b": BIT, INTEGER, OCTET or REAL",
        Place::ReturnKind => b": BIT, INTEGER, OCTET, REAL or none",
        Place::Mutability | Place::Operator => b"",
        Place::Shape => b": scalar, fixed or variable",
        Place::Tag => b": address, function, infix, number, pi, prefix or variable",
        Place::Form => b": identifier, reference or immediate",
        Place::Operation => b", such as MOVE, in capitals",
        Place::SourceForm => b": integer, real, reference or none",
        Place::Whole => b", without a point",
        Place::Real => b": with a point, as 0.0, or its bits as 0x..",
        Place::Unused => b": this word is unused",
    }
}

fn write_needed(place: Place) {
    text(b"write ");
    text(needed(place));
    text(b" here");
}

fn mnemonic(family: u64, operator: u64) {
    text(item(line_of(&MNEMONICS, family), operator));
}

fn fault_text(fault: Fault, word: &[u8]) {
    word_text(word);
    text(b": ");
    match fault {
        Fault::NoWord => text(b"no word of this file; write a number or a name"),
        Fault::TooLarge => text(b"it does not fit 64 bits; write a smaller number"),
        Fault::TooManyDigits => text(b"at most 15 digits, exponent 22; write its bits as 0x.."),
        Fault::NoPoint => {
            text(b"write ");
            word_text(word);
            text(b".0 for the value, or 0x.. for the bits")
        }
        Fault::Reserved => {
            text(b"a word of the tables, in any letters, is no name; write another")
        }
        Fault::Capitals(family, operator) => {
            text(b"an operation is in capitals; write ");
            mnemonic(family, operator)
        }
        Fault::Operation(place) => {
            text(b"an operation stands first on its row; ");
            write_needed(place)
        }
        Fault::Expected(place) => {
            write_needed(place);
            text(allowed(place))
        }
        Fault::Comment => text(b"a comment begins in the word; write a blank before #"),
    }
}

// The words of a table's row.
fn row_text(table: Table) -> &'static [u8] {
    match table {
        Table::Regions => b"3 words: name, kind, length",
        Table::Externs => b"4 words: name, return kind, first parameter, how many",
        Table::Parameters => b"5 words: name, mutable or immutable, shape, kind, length",
        Table::Nodes => b"3 words: tag and two words, - where one is unused",
        Table::Arguments => b"3 words: form and two words, - where one is unused",
        Table::Instructions => {
            b"8 words: operation, two and two for operands, source form and two"
        }
    }
}

fn trouble_text(trouble: Trouble, word: &[u8]) {
    match trouble {
        Trouble::Word(fault) => fault_text(fault, word),
        Trouble::RowOf(table) => {
            text(b"write ");
            text(row_text(table))
        }
        Trouble::Count => text(b"too many or too few words; docs/FORMAT.md has the line's"),
        Trouble::NoHeading => {
            word_text(word);
            text(b": no heading stands above it; write one, such as regions")
        }
        Trouble::NotAlone => {
            word_text(word);
            text(b": a heading stands alone and is no name; write rows below it")
        }
        Trouble::TooManyRows => text(b"the table has no room for more rows; write fewer"),
        Trouble::TooManyNames => text(b"more than 1024 names; write each as a number"),
        Trouble::NamesAreTexts => {
            word_text(word);
            text(b": names are texts in this file; write this one's text")
        }
        Trouble::NamesAreNumbers => {
            word_text(word);
            text(b": names are numbers in this file; write this one's number")
        }
        Trouble::LooseWords => text(b"names are texts in this file; write rows, and no word line"),
    }
}

// A line that is not taken: the desk has no file.
pub fn turned_down(desk: Desk, source: &[u8], reader: Reader, trouble: Trouble) -> Desk {
    let word = reader.word;
    style(desk.view, b"31");
    text(b"line ");
    number(reader.line as u64);
    text(b": ");
    trouble_text(trouble, part(source, word.start, word.end));
    byte(b'\n');
    style(desk.view, b"0");
    desk.stated(State::NoFile)
}
