// Where a refusal 1, 2, 3, 20, 21 or 22 lies. Rows and columns count from 0.
use stepper_words::heading::Table;

// A row of a table, by its number.
#[derive(Clone, Copy)]
pub struct Row {
    pub table: Table,
    pub number: usize,
}

// Rows of a table that a row asks for, and how many the table has.
#[derive(Clone, Copy)]
pub struct Range {
    pub first: u64,
    pub count: u64,
    pub table: Table,
    pub rows: usize,
}

// What is wrong with a jump.
#[derive(Clone, Copy)]
pub enum Jump {
    // Its label, which is on no row.
    NoTarget(u64),
    // Its condition's name, which no region has.
    Undeclared(u64),
    // Its condition's name and kind.
    NotBit(u64, u64),
}

// What a CONVERT does, or what is wrong with it.
#[derive(Clone, Copy)]
pub enum Conversion {
    ToReal,
    ToInteger,
    // The kinds that it would convert from and to.
    Kinds(u64, u64),
    // The destination's name, which no region has.
    NoDestination(u64),
    // The source's name, which no region has.
    NoSource(u64),
}

#[derive(Clone, Copy)]
pub enum Where {
    // The table, its words, and the words of a row.
    NotWholeRows(Table, usize, usize),
    // The table, its rows, and its limit.
    OverLimit(Table, usize, usize),
    // The row, and the column of the word.
    Word(Row, usize),
    Outside(Row, Range),
    // A frame, its nodes, and how many of them are one tree already; 0 where they are too few.
    NotOneTree(Row, Range, u64),
    Whole(Row),
    // The table, the name or the label, and its first two rows.
    SameName(Table, u64, usize, usize),
    Jump(Row, Jump),
    Conversion(Row, Conversion),
}

impl Where {
    // The table that it lies in.
    pub fn table(self) -> Table {
        match self {
            Where::NotWholeRows(table, _, _)
            | Where::OverLimit(table, _, _)
            | Where::SameName(table, _, _, _) => table,
            Where::Word(row, _)
            | Where::Outside(row, _)
            | Where::NotOneTree(row, _, _)
            | Where::Whole(row)
            | Where::Jump(row, _)
            | Where::Conversion(row, _) => row.table,
        }
    }
}
