// What the terminal holds beside its buffers.
use journal::position::Position;
use stepper_lines::view::View;
use stepper_tables::file::TABLES;
use tables::refusal::Refusal;

pub const MEMORY_WORDS: usize = 8200;

pub const JOURNAL_WORDS: usize = 6150;

pub const TEXT_BYTES: usize = 65536;

// Whether there is a file, and how open answered.
#[derive(Clone, Copy)]
pub enum State {
    NoFile,
    Opened,
    Refused(Refusal),
}

// How long a journal is enough for every order of keys: so many entries; none is sure to be, where the rows count more than a journal has or one of them is a jump; untold of a program that is turned down whatever is lent.
#[derive(Clone, Copy)]
pub enum Enough {
    Entries(usize),
    TooMany(usize),
    Jumps,
    Untold,
}

// The file's length, the tables' lengths in words and those of memory and journal, how long a journal is enough, the position, how open answered, and whether keys are still read.
#[derive(Clone, Copy)]
pub struct Desk {
    pub text: usize,
    pub lengths: [usize; TABLES],
    pub memory: usize,
    pub journal: usize,
    pub enough: Enough,
    pub position: Position,
    pub view: View,
    pub state: State,
    pub going: bool,
}

impl Desk {
    pub fn placed(self, position: Position) -> Desk {
        Desk { position, ..self }
    }

    pub fn stated(self, state: State) -> Desk {
        Desk { state, ..self }
    }

    pub fn measured(self, enough: Enough) -> Desk {
        Desk { enough, ..self }
    }

    pub fn has_file(self) -> bool {
        !matches!(self.state, State::NoFile)
    }

    pub fn is_opened(self) -> bool {
        matches!(self.state, State::Opened)
    }

    pub fn viewed(self, view: View) -> Desk {
        Desk { view, ..self }
    }

    pub fn stopped(self) -> Desk {
        Desk {
            going: false,
            ..self
        }
    }
}

pub fn new_desk(colour: bool, echo: bool) -> Desk {
    Desk {
        text: 0,
        lengths: [0; TABLES],
        memory: 0,
        journal: 0,
        enough: Enough::Untold,
        position: Position::first(),
        view: View {
            names: 0,
            bits: false,
            all: false,
            cells: false,
            colour,
            echo,
        },
        state: State::NoFile,
        going: true,
    }
}
