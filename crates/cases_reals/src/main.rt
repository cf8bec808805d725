// Reads standard input by lines. A word 0x.. is written as a REAL's text; any other word is read as a short decimal, and its word and text are written.
// Of two words the first says which way the second is converted, `to-real` an INTEGER, `to-integer` a REAL's word; the result's word is written.
#![tactic(auto)]

use real_text::decimal::read_decimal;
use real_text::text::text_of;
use script::descriptor::{STDIN_FILENO, STDOUT_FILENO};
use script::line::{line_at, part, word_at};
use script::number::read_number;
use words::convert::{integer_to_real, real_to_integer};

fn write_real(word: u64) {
    let text = text_of(word);
    let bytes = text.bytes;
    io::write_all(STDOUT_FILENO, part(&bytes, 0, text.length));
    io::write_all(STDOUT_FILENO, b"\n");
}

fn write_short(word: &[u8]) {
    match read_decimal(word) {
        Ok(bits) => {
            io::print_hex(STDOUT_FILENO, bits, 16);
            io::write_all(STDOUT_FILENO, b" ");
            write_real(bits);
        }
        _ => {
            io::write_all(STDOUT_FILENO, b"no short decimal\n");
        }
    }
}

fn write_word(word: &[u8]) {
    if word.len() != 18 {
        write_short(word);
        return;
    }
    match read_number(word) {
        Ok(bits) => write_real(bits),
        _ => write_short(word),
    }
}

fn write_bits(bits: u64) {
    io::print_hex(STDOUT_FILENO, bits, 16);
    io::write_all(STDOUT_FILENO, b"\n");
}

fn write_integer(real: u64) {
    match real_to_integer(real) {
        Some(integer) => write_bits(integer),
        None => {
            io::write_all(STDOUT_FILENO, b"outside\n");
        }
    }
}

fn write_converted(way: &[u8], bits: u64) {
    match way {
        b"to-real" => write_bits(integer_to_real(bits)),
        b"to-integer" => write_integer(bits),
        _ => {
            io::write_all(STDOUT_FILENO, b"no conversion\n");
        }
    }
}

fn convert(way: &[u8], word: &[u8]) {
    match read_number(word) {
        Ok(bits) => write_converted(way, bits),
        _ => {
            io::write_all(STDOUT_FILENO, b"no number\n");
        }
    }
}

fn write_line(line: &[u8]) {
    let first = word_at(line, 0, line.len());
    let second = word_at(line, first.end, line.len());
    let word = part(line, first.start, first.end);
    if second.start < second.end {
        convert(word, part(line, second.start, second.end));
        return;
    }
    if first.start < first.end {
        write_word(word);
    }
}

fn each_line(text: &[u8]) {
    for line in text.split(|&byte| byte == b'\n') {
        write_line(part(line, 0, line_at(line, 0).end));
    }
}

fn main() {
    let mut text = io::large_buffer();
    let count = io::read_full(STDIN_FILENO, &mut text);
    each_line(&text[..count]);
}
