// The chart as text, at most 80 columns wide.
use crate::forms::{VERDICT_COUNT, columns_of, mark_at, mark_of, row_start};
use crate::label::{
    OPERANDS, family_name, mnemonics, operand, operand_letter, role, roles, title, verdict_words,
};
use crate::layout::{new_line, to};
use crate::report::report;
use stepper_lines::line::Line;
use stepper_lines::print::{byte, text};
use tables::family::{ARITHMETIC, BINARY_LOGIC, COMPARISON, EXCHANGE, LOAD, MOVE, STORE, UNARY};
use verdict_table::blocks::NAMES;

// Where the cells of a row begin, after its label.
const LABEL: usize = 11;

// Columns from one group's first cell to the next one's.
const GROUP: usize = 14;

// Columns from a cell to the next.
const APART: usize = 2;

// Where they stand under NEG and NOT.
const WIDE_APART: usize = 4;

// The lines of a block of one group: its heads, and a row for each first operand.
const HEADS: u64 = 3;

const LINES: u64 = 8;

// The cells of a group from the line's end on, each by its column.
fn group<F: Fn(usize) -> u8>(line: Line, cell: F, columns: usize, apart: usize) -> Line
    requires { F.IsAlwaysCallable cell }
{
    let mut made = line;
    let mut at = line.length;
    for column in 0..columns {
        made = to(made, at).with(cell(column));
        at = at.wrapping_add(apart);
    }
    made
}

fn head(line: Line, family: u64) -> Line {
    mnemonics(family_name(line, family).text(b": "), family)
}

// ---- blocks of one group, side by side

// The line goes on behind a label.
fn behind(line: Line, start: usize) -> Line {
    to(line, start.wrapping_add(LABEL))
}

// In unary the columns are the operators.
fn column_heads(line: Line, family: u64) -> Line {
    if family == UNARY {
        return mnemonics(line, family);
    }
    group(line, operand_letter, columns_of(family), APART)
}

fn cells_of(line: Line, family: u64, first: u64) -> Line {
    let start = row_start(family, first);
    let apart = if family == UNARY { WIDE_APART } else { APART };
    let mark = |column: usize| mark_at(start.wrapping_add(column));
    group(line, mark, columns_of(family), apart)
}

// One line of the block of a family.
fn block_line(line: Line, family: u64, number: u64) -> Line {
    let start = line.length;
    match number {
        0 => head(line, family),
        1 => roles(line, family),
        2 => column_heads(behind(line, start), family),
        _ => {
            let first = number.wrapping_sub(HEADS);
            cells_of(behind(operand(line, first), start), family, first)
        }
    }
}

fn two_blocks(number: u64) {
    let left = to(block_line(new_line(), ARITHMETIC, number), 42);
    block_line(left, BINARY_LOGIC, number).end();
}

fn three_blocks(number: u64) {
    let left = to(block_line(new_line(), UNARY, number), 27);
    let middle = to(block_line(left, MOVE, number), 56);
    block_line(middle, EXCHANGE, number).end();
}

// Blocks side by side, line by line.
fn band<F: Fn(u64)>(line: F)
    requires { F.IsAlwaysCallable line }
{
    byte(b'\n');
    for number in 0..LINES {
        line(number);
    }
}

// ---- blocks of five groups, one for each second operand

// Before a group; a bar before all but the first.
fn parted(line: Line, second: usize, at: usize) -> Line {
    let bar = if second == 0 { b' ' } else { b'|' };
    to(line, at).with(bar)
}

// Each cell by its group and its column.
fn groups<F: Fn(usize, usize) -> u8>(line: Line, cell: F, columns: usize)
    requires { F.IsAlwaysCallable cell }
{
    let mut made = line;
    let mut at = LABEL - 1;
    for second in 0..NAMES {
        made = group(
            parted(made, second, at),
            |column| cell(second, column),
            columns,
            APART,
        );
        at = at.wrapping_add(GROUP);
    }
    made.end();
}

fn group_heads(line: Line) {
    let mut made = line;
    let mut at = LABEL;
    for second in 0..NAMES as u64 {
        made = operand(to(made, at), second);
        at = at.wrapping_add(GROUP);
    }
    made.end();
}

fn group_rows(family: u64, columns: usize) {
    for first in 0..NAMES as u64 {
        let start = row_start(family, first);
        let mark = |second: usize, column: usize| {
            mark_at(
                start
                    .wrapping_add(second.wrapping_mul(columns))
                    .wrapping_add(column),
            )
        };
        groups(operand(new_line(), first), mark, columns);
    }
}

fn wide_block(family: u64) {
    let columns = columns_of(family);
    byte(b'\n');
    roles(head(new_line(), family).text(b"; "), family).end();
    group_heads(role(new_line(), family, 2));
    groups(
        role(new_line(), family, 4),
        |_, column| operand_letter(column),
        columns,
    );
    group_rows(family, columns);
}

// ---- the whole

// An operand with its letter, and what stands behind it in the list of them.
fn operand_words(place: u64) {
    byte(operand_letter(place as usize));
    byte(b' ');
    operand(new_line(), place).print();
    match place {
        5 => text(b",\n"),
        6 => text(b". "),
        _ => text(b", "),
    }
}

fn operands() {
    text(b"Operands: ");
    for place in 0..OPERANDS {
        operand_words(place);
    }
    text(b"Rows by columns. Operators share verdicts, NEG and NOT apart.\n");
}

fn legend_line(verdict: u8) {
    byte(mark_of(verdict));
    byte(b' ');
    verdict_words(verdict);
    byte(b'\n');
}

fn legend() {
    for verdict in 0..VERDICT_COUNT {
        legend_line(verdict);
    }
}

pub fn chart() {
    title();
    byte(b'\n');
    operands();
    legend();
    band(two_blocks);
    band(three_blocks);
    wide_block(COMPARISON);
    wide_block(LOAD);
    wide_block(STORE);
    byte(b'\n');
    report();
}
