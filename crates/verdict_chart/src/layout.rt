// Lines that no width cuts, and columns in them.
use stepper_lines::line::Line;
use stepper_lines::view::View;

pub fn new_line() -> Line {
    Line::new(View {
        names: 0,
        bits: false,
        all: true,
        cells: false,
        colour: false,
        echo: false,
    })
}

// Blanks up to a column.
pub fn to(line: Line, column: usize) -> Line {
    (line.length..column).fold(line, |made, _| made.with(b' '))
}

// A number that ends before a column.
pub fn right(line: Line, n: u64, column: usize) -> Line {
    let width = new_line().number(n).length;
    to(line, column.wrapping_sub(width)).number(n)
}
