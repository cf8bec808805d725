// What a script lends to the calls: tables, memory and journal, and their lengths.
ghost use Rattle.std.specs.Prelude.{◌≤◌, length};

use script::fill::{fill, put};
use script::token::token_at;

// Room for a row more than the limits allow.
pub const ROOM: usize = 6150;

// The lists: of tables and given numbers the words, and of each list the length stand where its place says.
#[derive(Clone, Copy)]
pub enum List {
    Regions,
    Externs,
    Parameters,
    Nodes,
    Arguments,
    Instructions,
    Given,
    Memory,
    Journal,
}

// The six tables lie one after the other, then the numbers that are given to a call, and then the lengths of all lists.
const LENGTHS: usize = 7 * ROOM;

pub const TABLE_WORDS: usize = LENGTHS + 9;

pub const MEMORY_WORDS: usize = 8200;

pub const JOURNAL_WORDS: usize = 6150;

// A table by its sign.
fn table_of(sign: u8) -> List {
    match sign {
        b'R' => List::Regions,
        b'E' => List::Externs,
        b'P' => List::Parameters,
        b'N' => List::Nodes,
        b'A' => List::Arguments,
        b'I' => List::Instructions,
        _ => List::Given,
    }
}

// The word at a place, 0 past the end.
fn word_of(words: &[u64], i: usize) -> u64 {
    words.get(i).copied().unwrap_or(0)
}

pub fn length_of(tables: &[u64], which: List) -> usize {
    word_of(tables, LENGTHS + which as usize) as usize
}

// The words of a table, or the numbers that are given to a call.
pub fn words_of(tables: &[u64], which: List) -> &[u64] {
    let first = (which as usize * ROOM).min(tables.len());
    let end = first + length_of(tables, which).min(tables.len() - first);
    &tables[first..end]
}

// A number that is given to a call.
pub fn given(tables: &[u64], i: usize) -> u64 {
    word_of(words_of(tables, List::Given), i)
}

// The first words over and over, up to a length.
fn repeat(words: &mut [u64], first: usize, end: usize)
    requires { end ≤ length words.old }
{
    for i in first..end {
        words[i] = words[i - first];
    }
}

// Words that tell by themselves where they stand, from this one on.
const MARK: u64 = 1000;

fn mark(words: &mut [u64]) {
    for (i, word) in words.iter_mut().enumerate() {
        *word = i as u64 + MARK;
    }
}

// `n k w..`: a table of n words, the k given ones over and over. The place after it.
pub fn set_table(sign: u8, text: &[u8], at: usize, tables: &mut [u64]) -> usize {
    let which = table_of(sign);
    let first = (which as usize * ROOM).min(tables.len());
    let room = ROOM.min(tables.len() - first);
    let all = token_at(text, at);
    let given = token_at(text, all.next);
    let count = given.number() as usize;
    let end = (all.number() as usize).min(room);
    let words = &mut tables[first..first + room];
    let next = fill(text, given.next, words, count);
    repeat(words, count, end);
    put(tables, LENGTHS + which as usize, end as u64);
    next
}

// `n k w..`: memory or journal of n words, the k given ones and then marks. The place after it.
pub fn set_lent(
    text: &[u8],
    at: usize,
    words: &mut [u64],
    which: List,
    tables: &mut [u64],
) -> usize {
    let all = token_at(text, at);
    let given = token_at(text, all.next);
    let end = (all.number() as usize).min(words.len());
    let lent = &mut words[..end];
    mark(lent);
    put(tables, LENGTHS + which as usize, end as u64);
    fill(text, given.next, lent, given.number() as usize)
}
