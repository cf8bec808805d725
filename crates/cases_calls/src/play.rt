// The commands of a script, a sign each with numbers after it.
// R, E, P, N, A, I n k w..: a table of n words, the k given ones over and over; G: the numbers that are given to a call.
// M, J n k w..: memory or journal of n words, the k given ones and then marks. t, m, j i w: a word of the tables, which lie 6,150 words apart, of memory or of journal.
// p row steps used: the position. k place: the place of a walk. = text: a heading up to the line feed.
// e: journal_length. o: open. f: forward, given a reply. b: back. u: run, given an allowance. c: check. n: frame, given a row. v: resolve, given a row, into memory. s: the access sets, given a row, into memory and journal.
// w: a walk's next reference, given the first node and the count; r: the next ones, into memory. l: the loader's look, given a row and its family.
use crate::call::call;
use crate::lent::{JOURNAL_WORDS, List, MEMORY_WORDS, TABLE_WORDS, set_lent, set_table};
use crate::print;
use script::fill::{fill, put};
use script::line::{line_at, part};
use script::token::token_at;

fn heading(text: &[u8], at: usize) -> usize {
    let line = line_at(text, at);
    print::text(b"=");
    print::text(part(text, at, line.next));
    line.next
}

fn plant(text: &[u8], at: usize, words: &mut [u64]) -> usize {
    let index = token_at(text, at);
    let word = token_at(text, index.next);
    put(words, index.number() as usize, word.number());
    word.next
}

// What is lent, or else a call. The place after the command.
fn command(
    sign: u8,
    text: &[u8],
    at: usize,
    tables: &mut [u64; TABLE_WORDS],
    memory: &mut [u64; MEMORY_WORDS],
    journal: &mut [u64; JOURNAL_WORDS],
    position: &mut [u64; 3],
    place: &mut [u64; 1],
) -> usize {
    match sign {
        b'=' => heading(text, at),
        b'M' => set_lent(text, at, memory, List::Memory, tables),
        b'J' => set_lent(text, at, journal, List::Journal, tables),
        b'A'..=b'R' => set_table(sign, text, at, tables),
        b't' => plant(text, at, tables),
        b'm' => plant(text, at, memory),
        b'j' => plant(text, at, journal),
        b'p' => fill(text, at, position, 3),
        b'k' => fill(text, at, place, 1),
        _ => {
            call(sign, tables, memory, journal, position, place);
            at
        }
    }
}

// No command is shorter than a byte.
pub fn play(text: &[u8]) {
    let mut tables = [0; TABLE_WORDS];
    let mut memory = [0; MEMORY_WORDS];
    let mut journal = [0; JOURNAL_WORDS];
    let mut position = [0; 3];
    let mut place = [0; 1];
    let mut at = 0;
    for _ in 0..text.len() {
        let token = token_at(text, at);
        if token.is_end() {
            return;
        }
        at = command(
            token.sign(),
            text,
            token.next,
            &mut tables,
            &mut memory,
            &mut journal,
            &mut position,
            &mut place,
        );
    }
}
