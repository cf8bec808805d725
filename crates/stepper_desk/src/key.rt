// What a line asks for, and what a key needs.
use crate::state::{Desk, State};
use script::line::{part, word_at};
use stepper_lines::print::{style, text};
use stepper_tables::word::integer;

// What a key asks for. The empty line is forward; a run has its allowance, so many steps, or none that can be read.
#[derive(Clone, Copy)]
pub enum Key {
    Forward,
    Run(u64),
    NoAllowance,
    Back,
    Reset,
    About,
    Check,
    Bits,
    More,
    Open,
    Refusals,
    Help,
    Quit,
    Unknown,
}

impl Key {
    pub fn steps(self) -> bool {
        matches!(self, Key::Forward | Key::Run(_) | Key::Back | Key::Reset)
    }

    // Whether the screen is shown after it.
    pub fn shows(self) -> bool {
        match self {
            Key::Bits | Key::More | Key::Open => true,
            _ => self.steps(),
        }
    }
}

fn key_by(byte: u8) -> Key {
    match byte {
        b'b' => Key::Back,
        b'r' => Key::Reset,
        b'a' => Key::About,
        b'c' => Key::Check,
        b'x' => Key::Bits,
        b'm' => Key::More,
        b'o' => Key::Open,
        b'p' => Key::Refusals,
        b'h' => Key::Help,
        b'q' => Key::Quit,
        _ => Key::Unknown,
    }
}

// A run, by what stands after its key: one number that has no minus.
fn run_by(line: &[u8], at: usize) -> Key {
    let word = word_at(line, at, line.len());
    let more = word_at(line, word.end, line.len());
    let steps = part(line, word.start, word.end);
    if more.start < more.end || steps.starts_with(b"-") {
        return Key::NoAllowance;
    }
    integer(steps).map_or(Key::NoAllowance, Key::Run)
}

// The line's key: its first word, where that is one byte.
pub fn key_of(line: &[u8]) -> Key {
    let word = word_at(line, 0, line.len());
    match part(line, word.start, word.end) {
        [] => Key::Forward,
        [b'g'] => run_by(line, word.end),
        [byte] => key_by(*byte),
        _ => Key::Unknown,
    }
}

pub fn no_allowance() {
    text(b"g takes one number: how many steps it may take, as g 100\n");
}

pub fn no_file() {
    text(b"no file is open: o FILE opens one\n");
}

// Keys that step need an opened program.
pub fn is_open(desk: Desk) -> bool {
    match desk.state {
        State::Opened => return true,
        State::NoFile => no_file(),
        State::Refused(_) => {
            style(desk.view, b"31");
            text(b"the program is turned down, so there is no step: o FILE opens another\n");
            style(desk.view, b"0")
        }
    }
    false
}
