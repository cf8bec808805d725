// The program's rows, the current one marked.
ghost use Rattle.std.specs.Prelude.{◌≤◌};

use crate::line::Line;
use crate::print::{byte, style, text};
use crate::quil::Program;
use crate::view::View;
use std::ops::Range;
use stepper_words::names::NAME_WORDS;
use tables::rows::{INSTRUCTION_WIDTH, instruction_at};

// Rows that are shown, and how many of them stand before the current one, unless all are.
const ROWS: usize = 7;

const ROWS_BEFORE: usize = 3;

// A row's number at the right of three places.
fn row_number(line: Line, row: usize) -> Line {
    let tens = if row < 10 { line.with(b' ') } else { line };
    let hundreds = if row < 100 { tens.with(b' ') } else { tens };
    hundreds.number(row as u64).text(b"  ")
}

impl Program<'_> {
    fn numbered_row(self, line: Line, row: usize) -> Line {
        let numbered = row_number(line, row);
        if row < self.instructions.len() / INSTRUCTION_WIDTH {
            return self.row_text(numbered, instruction_at(self.instructions, row));
        }
        numbered
    }

    // A row after what stands before it, with its names shortened where it is too long.
    fn row_after(self, line: Line, row: usize) {
        let whole = self.numbered_row(line, row);
        if whole.fits() {
            whole.print();
            return;
        }
        self.numbered_row(line.shortened(), row).print();
    }

    // A row of the screen.
    fn screen_row(self, view: View, row: usize, current: bool) {
        if current {
            style(view, b"1");
        }
        let mark = if current { b"> " } else { b"  " };
        self.row_after(Line::new(view).text(mark), row);
        style(view, b"0");
        byte(b'\n');
    }
}

pub fn row_line(
    source: &[u8],
    names: &[u64; NAME_WORDS],
    view: View,
    nodes: &[u64],
    arguments: &[u64],
    instructions: &[u64],
    row: usize,
) {
    let program = Program {
        source,
        names,
        nodes,
        arguments,
        instructions,
    };
    program.row_after(Line::new(view), row);
}

// The rows that are shown.
fn shown_rows(view: View, rows: usize, current: usize) -> Range<usize>
    ensures { result.end ≤ rows }
{
    if view.all {
        return 0..rows;
    }
    // A foreign writer's position may lie past the rows.
    let start = current.min(rows).saturating_sub(ROWS_BEFORE);
    start..rows.min(start.saturating_add(ROWS))
}

// How many rows are left out above and below those that are shown.
fn rows_left_out(view: View, above: usize, below: usize) {
    if above == 0 && below == 0 {
        return;
    }
    Line::new(view)
        .text(b"       .. ")
        .number(above as u64)
        .text(b" above, ")
        .number(below as u64)
        .text(b" below: m shows all rows")
        .end();
}

// The end of the program as a row.
fn end_row(view: View) {
    style(view, b"1");
    text(b">      end");
    style(view, b"0");
    byte(b'\n');
}

// The rows around the current one.
pub fn program_rows(
    source: &[u8],
    names: &[u64; NAME_WORDS],
    view: View,
    nodes: &[u64],
    arguments: &[u64],
    instructions: &[u64],
    current: usize,
) {
    let program = Program {
        source,
        names,
        nodes,
        arguments,
        instructions,
    };
    let rows = instructions.len() / INSTRUCTION_WIDTH;
    let Range { start, end } = shown_rows(view, rows, current);
    for row in start..end {
        program.screen_row(view, row, row == current);
    }
    if current == rows {
        end_row(view);
    }
    rows_left_out(view, start, rows - end);
}
