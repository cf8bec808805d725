// A call on what is lent, and the line that tells of it.
use crate::lent::{JOURNAL_WORDS, List, MEMORY_WORDS, length_of};
use crate::print::{UNWRITTEN, changes, text};
use crate::{kept, steps};

// The out-arrays of a call that no other call goes on from are its own.
fn play(
    sign: u8,
    tables: &[u64],
    memory: &mut [u64],
    journal: &mut [u64],
    position: &mut [u64; 3],
    place: &mut [u64; 1],
) {
    match sign {
        b'e' => steps::journal_length(tables, &mut [UNWRITTEN; 1], &mut [UNWRITTEN; 6]),
        b'o' => steps::open(tables, memory, journal, position, &mut [UNWRITTEN; 6]),
        b'f' => steps::forward(tables, memory, journal, position),
        b'b' => steps::back(tables, memory, journal, position),
        b'u' => steps::run(tables, memory, journal, position, &mut [UNWRITTEN; 3]),
        b'c' => kept::check(tables, &mut [UNWRITTEN; 6]),
        b'n' => kept::frame(tables, &mut [UNWRITTEN; 1], &mut [UNWRITTEN; 6]),
        b'v' => kept::resolve(tables, memory, &mut [UNWRITTEN; 1]),
        b's' => kept::access(tables, memory, journal, &mut [UNWRITTEN; 2]),
        b'w' => kept::reference(tables, place, &mut [UNWRITTEN; 3]),
        b'r' => kept::references(tables, memory, place, &mut [UNWRITTEN; 1]),
        b'l' => kept::look(tables),
        _ => text(b"no call"),
    }
}

// As many words as both have.
fn copy(from: &[u64], to: &mut [u64]) {
    let words = from.len().min(to.len());
    to[..words].copy_from_slice(&from[..words]);
}

// The call, and the words of memory and journal that it changed.
fn told(
    sign: u8,
    tables: &[u64],
    memory: &mut [u64],
    journal: &mut [u64],
    position: &mut [u64; 3],
    place: &mut [u64; 1],
) {
    let mut memory_before = [0; MEMORY_WORDS];
    let mut journal_before = [0; JOURNAL_WORDS];
    copy(memory, &mut memory_before);
    copy(journal, &mut journal_before);
    play(sign, tables, memory, journal, position, place);
    changes(&memory_before, memory);
    changes(&journal_before, journal);
    text(b"\n");
}

// The calls are given the words of memory and journal that are lent, and move the position or the place.
pub fn call(
    sign: u8,
    tables: &[u64],
    memory: &mut [u64],
    journal: &mut [u64],
    position: &mut [u64; 3],
    place: &mut [u64; 1],
) {
    let words = length_of(tables, List::Memory).min(memory.len());
    let entries = length_of(tables, List::Journal).min(journal.len());
    told(
        sign,
        tables,
        &mut memory[..words],
        &mut journal[..entries],
        position,
        place,
    );
}
