// Pieces of output that no width cuts.
use crate::view::View;
use script::descriptor::STDOUT_FILENO;
use stepper_words::list::line_of;

pub fn text(bytes: &[u8]) {
    io::write_all(STDOUT_FILENO, bytes);
}

pub fn byte(b: u8) {
    text(&[b]);
}

// One line of a text, by its place from 0; nothing past the end.
pub fn line(list: &[u8], place: u64) {
    text(line_of(list, place));
}

pub fn number(n: u64) {
    io::print_decimal(STDOUT_FILENO, n);
}

// So many of what a word names.
pub fn counted(n: u64, word: &[u8]) {
    number(n);
    byte(b' ');
    text(word);
    if n != 1 {
        byte(b's');
    }
}

// A style where the output is a terminal: its number of the escape sequences, 0 for none.
pub fn style(view: View, number: &[u8]) {
    if view.colour {
        text(b"\x1b[");
        text(number);
        byte(b'm');
    }
}
