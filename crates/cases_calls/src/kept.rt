// The calls on tables alone, through their C forms, and the loader's look at a chosen row, which no call of its own shows for a family other than frame and CALL.
use crate::lent::{List, given, words_of};
use crate::print::{answered, written};
use console_c::access::console_access;
use console_c::check::console_check;
use console_c::frame::console_frame;
use console_c::reference::console_reference;
use console_c::references::console_references;
use console_c::resolve::console_resolve;
use loader::load::load_row;
use tables::refusal::Refusal;

pub fn check(tables: &[u64], error: &mut [u64; 6]) {
    let number = console_check(
        words_of(tables, List::Regions),
        words_of(tables, List::Externs),
        words_of(tables, List::Parameters),
        words_of(tables, List::Nodes),
        words_of(tables, List::Arguments),
        words_of(tables, List::Instructions),
        error,
    );
    answered(b"check", number);
    written(error);
}

pub fn frame(tables: &[u64], looked: &mut [u64; 1], error: &mut [u64; 6]) {
    let number = console_frame(
        words_of(tables, List::Regions),
        words_of(tables, List::Externs),
        words_of(tables, List::Parameters),
        words_of(tables, List::Nodes),
        words_of(tables, List::Arguments),
        words_of(tables, List::Instructions),
        given(tables, 0),
        looked,
        error,
    );
    answered(b"frame", number);
    written(looked);
    written(error);
}

pub fn resolve(tables: &[u64], rows: &mut [u64], count: &mut [u64; 1]) {
    let number = console_resolve(
        words_of(tables, List::Regions),
        words_of(tables, List::Externs),
        words_of(tables, List::Parameters),
        words_of(tables, List::Nodes),
        words_of(tables, List::Arguments),
        words_of(tables, List::Instructions),
        given(tables, 0),
        rows,
        count,
    );
    answered(b"resolve", number);
    written(count);
}

pub fn access(tables: &[u64], reads: &mut [u64], writes: &mut [u64], counts: &mut [u64; 2]) {
    let number = console_access(
        words_of(tables, List::Regions),
        words_of(tables, List::Externs),
        words_of(tables, List::Parameters),
        words_of(tables, List::Nodes),
        words_of(tables, List::Arguments),
        words_of(tables, List::Instructions),
        given(tables, 0),
        reads,
        writes,
        counts,
    );
    answered(b"access", number);
    written(counts);
}

// A step from a place.
pub fn reference(tables: &[u64], place: &mut [u64; 1], found: &mut [u64; 3]) {
    let number = console_reference(
        words_of(tables, List::Nodes),
        given(tables, 0),
        given(tables, 1),
        place,
        found,
    );
    answered(b"reference", number);
    written(place);
    written(found);
}

// As many references as there is room for, from a place.
pub fn references(tables: &[u64], rows: &mut [u64], place: &mut [u64; 1], count: &mut [u64; 1]) {
    let number = console_references(
        words_of(tables, List::Nodes),
        given(tables, 0),
        given(tables, 1),
        place,
        rows,
        count,
    );
    answered(b"references", number);
    written(place);
    written(count);
}

fn number_of(look: Result<(), Refusal>) -> u64 {
    match look {
        Ok(()) => 0,
        Err(refusal) => refusal.number(),
    }
}

pub fn look(tables: &[u64]) {
    let seen = load_row(
        words_of(tables, List::Regions),
        words_of(tables, List::Externs),
        words_of(tables, List::Parameters),
        words_of(tables, List::Nodes),
        words_of(tables, List::Arguments),
        words_of(tables, List::Instructions),
        given(tables, 0) as usize,
        given(tables, 1),
    );
    answered(b"look", number_of(seen));
}
