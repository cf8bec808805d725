// The reply to a CALL: its rows of argument, offset and value asked for.
use crate::errors::RESOLVE_WORDS;
use crate::resolved::VECTOR;
use call_reply::reply::{REPLY_LIMIT, REPLY_WIDTH};
use extern_call::rows::RESOLVED_WIDTH;
use script::line::{byte_at, part, word_at};
use stepper_desk::input::{LINE, ask, typed_line};
use stepper_lines::print::{byte, style, text};
use stepper_lines::view::View;
use stepper_tables::word::{Fault, decimal, integer};
use words::kind::REAL;

// One row more than a reply may have, so that one too long can be tried.
const REPLY_ROWS: usize = REPLY_LIMIT + 1;

pub const REPLY_WORDS: usize = REPLY_WIDTH * REPLY_ROWS;

// Nothing says that the lines of a reply end, so no more than these are asked for.
const LINES: usize = 10000;

// An argument's kind, where the CALL has that argument.
fn kind_of(rows: &[u64], count: usize, argument: u64) -> Option<u64> {
    let (resolved, _) = rows.as_chunks::<RESOLVED_WIDTH>();
    let &[form, _, vector_kind, kind, _] = resolved.iter().take(count).nth(argument as usize)?;
    Some(if form == VECTOR { vector_kind } else { kind })
}

// A REAL is a short decimal, or bits in hexadecimal; any other kind an integer.
fn number_in(k: u64, word: &[u8]) -> Result<u64, Fault> {
    if k == REAL && byte_at(word, 1) != b'x' {
        return decimal(word);
    }
    integer(word)
}

// Why a line is not taken.
fn complain(view: View, fault: Fault) {
    style(view, b"31");
    text(b"not taken: ");
    match fault {
        Fault::TooLarge => text(b"the number does not fit 64 bits"),
        Fault::TooManyDigits => text(b"at most 15 digits, exponent 22; write its bits as 0x.."),
        _ => text(
            b"a row is argument, offset and value, a REAL as a decimal or as bits 0x.., any other kind as an integer; an empty line ends the reply",
        ),
    }
    style(view, b"0");
    byte(b'\n');
}

// A line as a reply's row. What stands after the third word makes it no value. Whatever is typed for an argument that there is not, the step refuses.
fn row_in(line: &[u8], rows: &[u64], count: usize) -> Result<[u64; REPLY_WIDTH], Fault> {
    let first = word_at(line, 0, line.len());
    let second = word_at(line, first.end, line.len());
    let third = word_at(line, second.end, line.len());
    let fourth = word_at(line, third.end, line.len());
    let end = if fourth.start < fourth.end {
        fourth.end
    } else {
        third.end
    };
    let argument = integer(part(line, first.start, first.end))?;
    let offset = integer(part(line, second.start, second.end))?;
    let Some(kind) = kind_of(rows, count, argument) else {
        return Ok([argument, offset, 0, 0]);
    };
    let value = number_in(kind, part(line, third.start, end))?;
    Ok([argument, offset, kind, value])
}

fn is_empty(line: &[u8]) -> bool {
    let word = word_at(line, 0, line.len());
    word.start >= word.end
}

// Asks for rows, up to an empty line; how many words, or nothing where the input's end cuts the reply short. After one row too many no more is asked for.
pub fn ask_reply(
    rows: &[u64; RESOLVE_WORDS],
    count: usize,
    reply: &mut [u64; REPLY_WORDS],
    view: View,
) -> Option<usize> {
    let mut row = 0;
    'lines: for _ in 0..LINES {
        if row >= REPLY_ROWS {
            break;
        }
        let mut line = [0; LINE];
        let typed = ask(b"reply: ", &mut line, view);
        if typed.ended {
            return None;
        }
        let words = typed_line(&line, typed);
        if is_empty(words) {
            break;
        }
        match row_in(words, rows, count) {
            Ok(written) => {
                let at = row * REPLY_WIDTH;
                reply[at..at + REPLY_WIDTH].copy_from_slice(&written);
                row += 1;
            }
            Err(fault) => complain(view, fault),
        }
    }
    Some(row * REPLY_WIDTH)
}
