// The chart as a page: one HTML file with nothing outside it.
use crate::forms::{
    Span, VERDICT_COUNT, columns_of, is_grouped, mark_at, mark_of, row_size, row_start,
};
use crate::label::{
    family_name, family_word, mnemonic, mnemonics, operand, role, roles, short_operand, title,
    verdict_words,
};
use crate::layout::new_line;
use crate::style::style;
use stepper_lines::line::Line;
use stepper_lines::print::text;
use tables::family::{FRAME, UNARY};
use verdict_table::blocks::NAMES;

// An element with a mark in it, whose class, the small letter, gives the colour.
fn marked(line: Line, tag: &[u8], mark: u8) -> Line {
    line.text(tag)
        .text(b" class=")
        .with(mark.wrapping_add(32))
        .with(b'>')
        .with(mark)
}

// ---- head and legend

// A short head, with what it stands for.
fn short_words(place: u64, between: &[u8], after: &[u8]) {
    text(b"<b>");
    short_operand(new_line(), place).print();
    text(b"</b>");
    operand(new_line().text(between), place).print();
    text(after);
}

fn head() {
    text(
        b"<!DOCTYPE html>\n\
        <html lang=en>\n\
        <meta charset=utf-8>\n\
        <meta name=viewport content='width=device-width, initial-scale=1'>\n\
        <title>",
    );
    title();
    text(b"</title>\n");
    style();
}

fn header() {
    text(b"<body>\n<header>\n<h1>");
    title();
    text(
        b"</h1>\n\
        <p>Rows are the first operand and columns the last; where there are three, each group of columns is a second operand. \
        The operators of a block share its verdicts, NEG and NOT apart.\n\
        <p>",
    );
    short_words(0, b" ", b", ");
    short_words(2, b" ", b", ");
    short_words(3, b" ", b", ");
    short_words(5, b" an ", b", ");
    short_words(6, b" a ", b"\n</header>\n");
}

fn legend_item(verdict: u8) {
    marked(new_line(), b"<li><b", mark_of(verdict)).print();
    text(b"</b> ");
    verdict_words(verdict);
    text(b"\n");
}

fn legend_items() {
    for verdict in 0..VERDICT_COUNT {
        legend_item(verdict);
    }
}

fn legend() {
    text(b"<aside>\n<ul>\n");
    legend_items();
    text(b"</ul>\n</aside>\n");
}

// ---- a family's block

fn caption(line: Line, family: u64) -> Line {
    let named = family_name(line.text(b"<caption><b>"), family).text(b"</b>");
    if is_grouped(family) {
        let operators = mnemonics(named.with(b' '), family);
        return roles(operators.text(b" <i>"), family).text(b"</i></caption>");
    }
    mnemonics(named.text(b"<br>"), family).text(b"</caption>")
}

fn groups_of(family: u64) -> u64 {
    if is_grouped(family) { NAMES as u64 } else { 1 }
}

// What stands above a group of columns.
fn group_head(line: Line, family: u64, second: u64) -> Line {
    let sized = line
        .text(b"<th scope=col colspan=")
        .number(columns_of(family) as u64);
    let headed = role(sized.text(b"><i>"), family, 2).text(b"</i>");
    if is_grouped(family) {
        return operand(headed.with(b' '), second);
    }
    headed
}

fn group_heads(line: Line, family: u64) -> Line {
    (0..groups_of(family)).fold(line, |made, second| group_head(made, family, second))
}

// In unary the columns are the operators.
fn column_head(line: Line, family: u64, column: u64) -> Line {
    let cell = line.text(b"<th scope=col>");
    if family == UNARY {
        return mnemonic(cell, family, column);
    }
    short_operand(cell, column)
}

fn column_heads(line: Line, family: u64) -> Line {
    let columns = columns_of(family) as u64;
    (0..columns).fold(line, |made, column| column_head(made, family, column))
}

fn all_column_heads(line: Line, family: u64) -> Line {
    (0..groups_of(family)).fold(line, |made, _| column_heads(made, family))
}

// The marks of so many forms from a place on.
fn marks(line: Line, start: usize, forms: usize) -> Line {
    (0..forms).fold(line, |made, form| {
        marked(made, b"<td", mark_at(start.wrapping_add(form)))
    })
}

fn rows(family: u64) {
    for first in 0..NAMES as u64 {
        let labelled = operand(new_line().text(b"<tr><th scope=row>"), first);
        marks(labelled, row_start(family, first), row_size(family)).end();
    }
}

fn block(family: u64) {
    family_word(new_line().text(b"<div id="), family).print();
    text(b">\n<table>\n");
    caption(new_line(), family).end();
    group_heads(new_line().text(b"<thead><tr><td>"), family).end();
    let first = role(new_line().text(b"<tr><th scope=col><i>"), family, 0);
    all_column_heads(first.text(b"</i>"), family).end();
    text(b"<tbody>\n");
    rows(family);
    text(b"</table>\n</div>\n");
}

fn blocks() {
    for family in 0..FRAME {
        block(family);
    }
}

// ---- the counts

fn count_heads(line: Line) -> Line {
    (0..VERDICT_COUNT).fold(line, |made, verdict| {
        marked(made, b"<th scope=col", mark_of(verdict))
    })
}

// The number of all forms, and of those under each verdict.
fn count_cells(line: Line, forms: Span) -> Line {
    let all = line.text(b"<td>").number(forms.size() as u64);
    (0..VERDICT_COUNT).fold(all, |made, verdict| {
        made.text(b"<td>").number(forms.under(verdict) as u64)
    })
}

fn count_rows() {
    for family in 0..FRAME {
        let labelled = family_name(new_line().text(b"<tr><th scope=row>"), family);
        count_cells(labelled, Span::of_family(family)).end();
    }
}

fn counts() {
    text(
        b"<div id=counts>\n\
        <table>\n\
        <caption><b>counts</b> forms under each verdict</caption>\n",
    );
    count_heads(new_line().text(b"<thead><tr><td><th scope=col>all")).end();
    text(b"<tbody>\n");
    count_rows();
    count_cells(new_line().text(b"<tr><th scope=row>all"), Span::whole()).end();
    text(b"</table>\n</div>\n");
}

pub fn page() {
    head();
    header();
    legend();
    blocks();
    counts();
}
