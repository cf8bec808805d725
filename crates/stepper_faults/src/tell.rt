// Where a refusal lies, in words. No line is longer than 80 columns, whatever the words are.
use crate::allowed::{Allowed, words_at};
use crate::fault::{Range, Row, Where};
use crate::known::{Names, heading, row_head};
use crate::row::whole_row;
use crate::tell_convert::tell_convert;
use crate::tell_jump::tell_jump;
use stepper_lines::print::{byte, line, number, text};
use stepper_lines::view::View;
use stepper_words::heading::Table;
use stepper_words::names::{NAME_WORDS, word_of};
use stepper_words::place;
use stepper_words::place::ROW_WORDS;

// A number with a comma before its last three digits.
fn grouped(n: usize) {
    if n < 1000 {
        number(n as u64);
        return;
    }
    let rest = n % 1000;
    number((n / 1000) as u64);
    byte(b',');
    number((rest / 100) as u64);
    number((rest / 10 % 10) as u64);
    number((rest % 10) as u64);
}

// A column in words.
fn column_name(table: Table, column: u64) {
    match table {
        Table::Regions => line(b"name\nkind\nlength", column),
        Table::Externs => line(
            b"name\nreturn kind\nfirst parameter\nparameter count",
            column,
        ),
        Table::Parameters => line(b"name\nmutability\nshape\nkind\nlength", column),
        Table::Nodes => line(b"tag\nfirst word\nsecond word", column),
        Table::Arguments => line(b"form\nfirst word\nsecond word", column),
        Table::Instructions => line(
            b"family\noperator\nfirst name\nfirst index\nsecond name\nsecond index\n\
            source form\nfirst source word\nsecond source word",
            column,
        ),
    }
}

fn allowed_words(words: Allowed) {
    match words {
        Allowed::Any => {}
        Allowed::UpTo(last) => {
            text(b"; allowed are 0 to ");
            number(last)
        }
        Allowed::Either(one, other) => {
            text(b"; allowed are ");
            number(one);
            text(b" and ");
            number(other)
        }
        Allowed::Alone(only) => {
            text(b"; allowed is ");
            number(only)
        }
        Allowed::Unused => text(b"; unused, it must be 0"),
    }
}

fn word_line(row: Row, words: [u64; ROW_WORDS], column: usize) {
    let place = place::place_of(row.table, words, column);
    text(b":\n  word ");
    number((column as u64).wrapping_add(1));
    text(b", the ");
    column_name(row.table, column as u64);
    text(b", is ");
    number(word_of(&words, column));
    allowed_words(words_at(place, words[0]));
}

fn range_line(range: Range) {
    text(b"\n  ");
    heading(range.table);
    text(b" from row ");
    number(range.first);
    text(b", count ");
    number(range.count);
}

fn tree_line(range: Range, rows: u64) {
    byte(b':');
    range_line(range);
    text(b": not exactly one tree; ");
    if rows == 0 {
        text(b"more are needed");
    } else {
        text(b"one ends after ");
        number(rows);
    }
}

// A refusal 2, with the words of its row.
fn tell_row(at: Where, words: [u64; ROW_WORDS]) {
    match at {
        Where::Word(row, column) => word_line(row, words, column),
        Where::Outside(_, range) => {
            text(b" asks for");
            range_line(range);
            text(b", of ");
            grouped(range.rows)
        }
        Where::NotOneTree(_, range, rows) => tree_line(range, rows),
        _ => text(b" is not allowed"),
    }
}

fn tell_in_row(names: Names, at: Where, row: Row, table: &[u64]) {
    let words = table.chunks(row.table.width()).nth(row.number);
    let words = whole_row(words.unwrap_or(&[]));
    row_head(names, row, words);
    match at {
        Where::Jump(_, wrong) => tell_jump(names, wrong),
        Where::Conversion(_, wrong) => tell_convert(names, wrong),
        _ => tell_row(at, words),
    }
}

fn tell_words(which: Table, words: usize, width: usize) {
    heading(which);
    text(b": ");
    grouped(words);
    text(b" word");
    if words != 1 {
        byte(b's');
    }
    text(b", not whole rows of ");
    grouped(width);
}

fn tell_rows(which: Table, rows: usize, limit: usize) {
    heading(which);
    text(b": ");
    grouped(rows);
    text(b" rows, at most ");
    grouped(limit);
}

fn tell_pair(names: Names, which: Table, n: u64, first: usize, second: usize) {
    heading(which);
    text(b", rows ");
    number(first as u64);
    text(b" and ");
    number(second as u64);
    match which {
        Table::Instructions => text(b" have the same label (@"),
        _ => text(b" have the same name ("),
    }
    names.show(n);
    byte(b')');
}

// `table` has the words of the table that it lies in.
pub fn tell(source: &[u8], names: &[u64; NAME_WORDS], view: View, at: Where, table: &[u64]) {
    let names = Names {
        source,
        places: names,
        count: view.names,
    };
    match at {
        Where::NotWholeRows(which, words, width) => tell_words(which, words, width),
        Where::OverLimit(which, rows, limit) => tell_rows(which, rows, limit),
        Where::SameName(which, n, first, second) => tell_pair(names, which, n, first, second),
        Where::Word(row, _)
        | Where::Outside(row, _)
        | Where::NotOneTree(row, _, _)
        | Where::Whole(row)
        | Where::Jump(row, _)
        | Where::Conversion(row, _) => tell_in_row(names, at, row, table),
    }
    byte(b'\n');
}
