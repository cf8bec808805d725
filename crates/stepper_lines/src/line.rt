// A line of the screen, built before it is written: one too long for the screen is cut where an item ends, never inside a number.
use crate::print::{byte, text};
use crate::view::View;
use real_text::text::text_of;
use script::line::part;
use stepper_words::list::item;
use stepper_words::names::{NAME_WORDS, place_of};
use stepper_words::vocabulary::KINDS;
use words::kind::{BIT, INTEGER, OCTET, REAL};

pub const COLUMNS: usize = 80;

// The length of a line that the screen has no room for.
const PAST: usize = COLUMNS + 1;

const MARK: &[u8] = b" .. (m shows all)";

// The column up to which items are kept, so that the mark fits.
const LIMIT: usize = COLUMNS - MARK.len();

// For a line that has no room for the mark's words.
const SHORT_MARK: &[u8] = b" .. (m)";

const TIGHT_LIMIT: usize = COLUMNS - SHORT_MARK.len();

// A name that is longer is shortened to this, so that one change always fits before the short mark: its name, an index of four digits and two REAL values of 24 bytes.
const LONG_NAME: usize = 14;

// What a shortened name keeps at either end.
const NAME_END: usize = 6;

// The bytes so far, how many of them are whole items, up to which column items are kept, whether long names are shortened, and whether the next item is joined to what stands before it.
#[derive(Clone, Copy)]
pub struct Line {
    pub bytes: [u8; COLUMNS],
    pub length: usize,
    pub kept: usize,
    pub limit: usize,
    pub short: bool,
    pub joined: bool,
    pub view: View,
}

impl Line {
    pub fn new(view: View) -> Line {
        Line {
            bytes: [0; COLUMNS],
            length: 0,
            kept: 0,
            limit: LIMIT,
            short: false,
            joined: false,
            view,
        }
    }

    // For a line that did not fit.
    pub fn shortened(self) -> Line {
        Line {
            short: true,
            ..self
        }
    }

    // Where the mark's words would cost an item.
    pub fn tight(self) -> Line {
        Line {
            limit: TIGHT_LIMIT,
            ..self
        }
    }

    // The next item follows at once.
    pub fn join(self) -> Line {
        Line {
            joined: true,
            ..self
        }
    }

    // Before an item.
    pub fn gap(self) -> Line {
        if self.joined {
            return Line {
                joined: false,
                ..self
            };
        }
        self.text(b"  ")
    }

    // The byte after what stands there. A full line is written and goes on with it, or is cut.
    fn push(&mut self, byte: u8) {
        if self.length < COLUMNS {
            self.bytes[self.length] = byte;
            self.length += 1;
        } else if self.view.all {
            text(&self.bytes);
            self.bytes[0] = byte;
            self.length = 1;
        } else {
            self.length = PAST;
        }
    }

    pub fn with(self, byte: u8) -> Line {
        let mut line = self;
        line.push(byte);
        line
    }

    pub fn text(self, bytes: &[u8]) -> Line {
        let mut line = self;
        for byte in bytes {
            line.push(*byte);
        }
        line
    }

    // An item ends here.
    pub fn whole(self) -> Line {
        if self.length <= self.limit {
            return Line {
                kept: self.length,
                ..self
            };
        }
        self
    }

    // Whether there is nothing to cut.
    pub fn fits(self) -> bool {
        self.length <= COLUMNS
    }

    // Whether all items are kept, with room for the mark.
    pub fn is_whole(self) -> bool {
        self.kept == self.length
    }

    // Leaves out what would follow.
    pub fn cut(self) -> Line {
        Line {
            length: PAST,
            ..self
        }
    }

    pub fn print(self) {
        if self.fits() {
            text(part(&self.bytes, 0, self.length));
            return;
        }
        text(part(&self.bytes, 0, self.kept));
        text(if self.limit == LIMIT {
            MARK
        } else {
            SHORT_MARK
        });
    }

    pub fn end(self) {
        self.print();
        byte(b'\n');
    }

    pub fn number(self, n: u64) -> Line {
        let mut digits = [0; 20];
        let count = io::decimal(n, &mut digits);
        self.text(&digits[..count])
    }

    // As two's complement.
    pub fn signed(self, n: u64) -> Line {
        let value = n.cast_signed();
        if value >= 0 {
            return self.number(n);
        }
        self.with(b'-').number(value.unsigned_abs())
    }

    fn bits(self, n: u64) -> Line {
        let mut digits = [0; 16];
        let count = io::hex(n, 16, &mut digits);
        self.text(b"0x").text(&digits[..count])
    }

    pub fn kind(self, k: u64) -> Line {
        if k <= REAL {
            return self.text(item(&KINDS, k));
        }
        self.text(b"kind ").number(k)
    }

    pub fn vector(self, k: u64, length: u64) -> Line {
        self.kind(k).with(b'[').number(length).with(b']')
    }

    pub fn real(self, word: u64) -> Line {
        if self.view.bits {
            return self.bits(word);
        }
        let written = text_of(word);
        self.text(part(&written.bytes, 0, written.length))
    }

    // A word of a kind. A foreign kind has no text of its own.
    pub fn value(self, k: u64, word: u64) -> Line {
        match k {
            BIT | OCTET => self.number(word),
            INTEGER => self.signed(word),
            REAL => self.real(word),
            _ => self.text(b"(kind ").number(k).text(b") ").number(word),
        }
    }

    // A name, or its two ends where it is long and long names are shortened.
    fn name_text(self, name: &[u8]) -> Line {
        if !self.short || name.len() <= LONG_NAME {
            return self.text(name);
        }
        self.text(&name[..NAME_END])
            .text(b"..")
            .text(&name[name.len() - NAME_END..])
    }

    // A name that is a number, after its mark.
    fn number_name(self, n: u64) -> Line {
        let mut digits = [0; 20];
        let count = io::decimal(n, &mut digits);
        let mut name = [b'#'; 21];
        name[1..].copy_from_slice(&digits);
        self.name_text(&name[..count + 1])
    }

    // A name by its text, or by its number where the file has no text for it.
    pub fn name(self, source: &[u8], names: &[u64; NAME_WORDS], n: u64) -> Line {
        if n >= self.view.names as u64 {
            return self.number_name(n);
        }
        let place = place_of(names, n as usize);
        self.name_text(part(source, place.start, place.end))
    }

    pub fn reference(self, source: &[u8], names: &[u64; NAME_WORDS], n: u64, index: u64) -> Line {
        self.name(source, names, n)
            .with(b'[')
            .signed(index)
            .with(b']')
    }
}

// How many of `count` lines are shown where there is room for `most` and one more, which tells of the rest.
pub fn shown(view: View, count: usize, most: usize) -> usize {
    if view.all || count <= most.wrapping_add(1) {
        count
    } else {
        most
    }
}

// The line that tells of the rest.
pub fn left_out(view: View, lines: usize, count: usize, what: &[u8]) {
    if lines < count {
        Line::new(view)
            .text(b"  .. ")
            .number((count - lines) as u64)
            .text(what)
            .end();
    }
}
