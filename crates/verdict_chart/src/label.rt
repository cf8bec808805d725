// The words that text, page and report share.
use script::line::byte_at;
use stepper_lines::line::Line;
use stepper_lines::print::{number, text};
use stepper_lines::type_error;
use stepper_words::list::{item, line_of};
use stepper_words::vocabulary::MNEMONICS;
use type_rules::code::REAL_REQUIRED;

// One line of a text, by its place from 0.
fn listed(line: Line, list: &[u8], place: u64) -> Line {
    line.text(line_of(list, place))
}

pub fn title() {
    text(b"Verdicts of the type check");
}

const FAMILIES: &[u8] = b"arithmetic\ncomparison\nbinary logic\nunary\nmove\nexchange\nload\nstore";

pub fn family_name(line: Line, family: u64) -> Line {
    listed(line, FAMILIES, family)
}

// As one word.
pub fn family_word(line: Line, family: u64) -> Line {
    let name = line_of(FAMILIES, family);
    let first = line.text(item(name, 0));
    let rest = item(name, 1);
    if rest.is_empty() {
        return first;
    }
    first.with(b'-').text(rest)
}

pub fn mnemonics(line: Line, family: u64) -> Line {
    listed(line, &MNEMONICS, family)
}

pub fn mnemonic(line: Line, family: u64, operator: u64) -> Line {
    line.text(item(line_of(&MNEMONICS, family), operator))
}

// What a block's rows, groups of columns and columns are, a line for each family.
const ROLES: &[u8] =
    b"destination by source\ndestination by lhs by rhs\ndestination by source\noperand by operator\ndestination by source\nleft by right\ndestination by source by offset\ndestination by offset by source";

pub fn roles(line: Line, family: u64) -> Line {
    listed(line, ROLES, family)
}

// One of them, by its place among the line's words.
pub fn role(line: Line, family: u64, place: u64) -> Line {
    line.text(item(line_of(ROLES, family), place))
}

// What an operand may be: undeclared, of four kinds, of two literals.
pub const OPERANDS: u64 = 7;

pub fn operand(line: Line, place: u64) -> Line {
    listed(
        line,
        b"undeclared\nBIT\nINTEGER\nOCTET\nREAL\ninteger literal\nreal literal",
        place,
    )
}

// In short, for the head of a column.
pub fn short_operand(line: Line, place: u64) -> Line {
    listed(line, b"und.\nBIT\nINT\nOCT\nREAL\n1\n0.5", place)
}

// As a letter.
pub fn operand_letter(place: usize) -> u8 {
    byte_at(b"ubiornx", place)
}

fn error_words(kind: u64) {
    text(b"type error ");
    number(kind);
    text(b" (");
    type_error::name(kind);
    text(b"): ");
    type_error::cause(kind);
    if kind == REAL_REQUIRED {
        text(b"; no frame is here");
    }
}

pub fn verdict_words(verdict: u8) {
    if verdict == 0 {
        text(b"accepted");
        return;
    }
    error_words(u64::from(verdict));
}
