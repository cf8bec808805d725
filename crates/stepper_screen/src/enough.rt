// How long a journal is enough for every order of keys, in words.
use journal::entries::ENTRY_LIMIT;
use stepper_desk::state::Enough;
use stepper_lines::print::{number, text};

fn suffice(entries: usize) {
    text(b"; ");
    number(entries as u64);
    if entries == 1 {
        text(b" always suffices");
    } else {
        text(b" always suffice");
    }
}

fn no_length() {
    text(b"; no length is sure");
}

// Beside the entries used. With 512 rows and 2,048 entries the line has 77 columns.
pub fn beside_used(enough: Enough) {
    match enough {
        Enough::Entries(entries) => suffice(entries),
        Enough::TooMany(_) | Enough::Jumps => no_length(),
        Enough::Untold => {}
    }
}

fn entries_are(entries: usize) {
    number(entries as u64);
    if entries == 1 {
        text(b" entry is");
    } else {
        text(b" entries are");
    }
}

fn none_is_sure() {
    text(b": none is sure to be long enough for every order of keys");
}

// A line of its own.
pub fn enough_line(enough: Enough) {
    match enough {
        Enough::Entries(entries) => {
            text(b"journal: ");
            entries_are(entries);
            text(b" enough for every order of keys\n")
        }
        Enough::TooMany(entries) => {
            text(b"journal: the rows count ");
            number(entries as u64);
            text(b" entries, and a journal has at most ");
            number(ENTRY_LIMIT as u64);
            none_is_sure();
            text(b"\n")
        }
        Enough::Jumps => {
            text(b"journal: a row is a jump");
            none_is_sure();
            text(b"; a step uses at most 65 entries\n")
        }
        Enough::Untold => {}
    }
}
