// A session's calls, and the journal's length before one, through their C forms. A refusal keeps the position, which is written either way.
use crate::lent::{List, given, words_of};
use crate::print::{answered, written};
use console_c::back::console_back;
use console_c::forward::console_forward;
use console_c::journal_length::console_journal_length;
use console_c::open::console_open;
use console_c::run::console_run;

pub fn journal_length(tables: &[u64], entries: &mut [u64; 1], error: &mut [u64; 6]) {
    let number = console_journal_length(
        words_of(tables, List::Regions),
        words_of(tables, List::Externs),
        words_of(tables, List::Parameters),
        words_of(tables, List::Nodes),
        words_of(tables, List::Arguments),
        words_of(tables, List::Instructions),
        entries,
        error,
    );
    answered(b"journal_length", number);
    written(entries);
    written(error);
}

pub fn open(
    tables: &[u64],
    memory: &mut [u64],
    journal: &[u64],
    position: &mut [u64; 3],
    error: &mut [u64; 6],
) {
    let number = console_open(
        words_of(tables, List::Regions),
        words_of(tables, List::Externs),
        words_of(tables, List::Parameters),
        words_of(tables, List::Nodes),
        words_of(tables, List::Arguments),
        words_of(tables, List::Instructions),
        memory,
        journal,
        position,
        error,
    );
    answered(b"open", number);
    written(position);
    written(error);
}

pub fn forward(tables: &[u64], memory: &mut [u64], journal: &mut [u64], position: &mut [u64; 3]) {
    let number = console_forward(
        words_of(tables, List::Regions),
        words_of(tables, List::Externs),
        words_of(tables, List::Parameters),
        words_of(tables, List::Nodes),
        words_of(tables, List::Arguments),
        words_of(tables, List::Instructions),
        memory,
        journal,
        position,
        words_of(tables, List::Given),
    );
    answered(b"forward", number);
    written(position);
}

pub fn back(tables: &[u64], memory: &mut [u64], journal: &[u64], position: &mut [u64; 3]) {
    let number = console_back(
        words_of(tables, List::Regions),
        words_of(tables, List::Externs),
        words_of(tables, List::Parameters),
        words_of(tables, List::Nodes),
        words_of(tables, List::Arguments),
        words_of(tables, List::Instructions),
        memory,
        journal,
        position,
    );
    answered(b"back", number);
    written(position);
}

pub fn run(
    tables: &[u64],
    memory: &mut [u64],
    journal: &mut [u64],
    position: &mut [u64; 3],
    ran: &mut [u64; 3],
) {
    let number = console_run(
        words_of(tables, List::Regions),
        words_of(tables, List::Externs),
        words_of(tables, List::Parameters),
        words_of(tables, List::Nodes),
        words_of(tables, List::Arguments),
        words_of(tables, List::Instructions),
        memory,
        journal,
        position,
        given(tables, 0),
        ran,
    );
    answered(b"run", number);
    written(position);
    written(ran);
}
