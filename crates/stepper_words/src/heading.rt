// The headings of a file's lines, and the six tables.
ghost use Rattle.std.specs.Prelude.{◌<◌};

use crate::list::index_of;
use journal::cells::CELL_WIDTH;
use journal::entries::ENTRY_WIDTH;
use tables::rows::{
    ARGUMENT_WIDTH, EXTERN_WIDTH, INSTRUCTION_WIDTH, NODE_WIDTH, PARAMETER_WIDTH, REGION_WIDTH,
};

#[derive(Clone, Copy)]
pub enum Table {
    Regions,
    Externs,
    Parameters,
    Nodes,
    Arguments,
    Instructions,
}

// What a line is by its first word: a table's heading; what is lent; what a foreign writer leaves; words that need not be a whole row; or, with no heading, a row.
#[derive(Clone, Copy)]
pub enum Heading {
    Of(Table),
    Memory,
    Journal,
    Cell,
    Entry,
    Position,
    Loose,
    Nothing,
}

pub const HEADINGS: [u8; 95] =
    *b"regions externs parameters nodes arguments instructions memory journal cell entry position word";

impl Table {
    // Its place among the six.
    pub fn number(self) -> usize
        ensures { result < 6 }
    {
        self as usize
    }

    // Words in a row.
    pub fn width(self) -> usize
        ensures { 0 < result }
    {
        match self {
            Table::Regions => REGION_WIDTH,
            Table::Externs => EXTERN_WIDTH,
            Table::Parameters => PARAMETER_WIDTH,
            Table::Nodes => NODE_WIDTH,
            Table::Arguments => ARGUMENT_WIDTH,
            Table::Instructions => INSTRUCTION_WIDTH,
        }
    }
}

impl Heading {
    pub fn is_nothing(self) -> bool {
        matches!(self, Heading::Nothing)
    }

    // Whether its line has words of the table whose heading came last.
    pub fn fills_table(self) -> bool {
        matches!(self, Heading::Loose | Heading::Nothing)
    }

    // Words on its line, where it is no table's: a number comes before a cell's and an entry's.
    pub fn width(self) -> usize {
        match self {
            Heading::Cell => CELL_WIDTH + 1,
            Heading::Entry => ENTRY_WIDTH + 1,
            Heading::Position => 3,
            _ => 1,
        }
    }
}

// A heading by its place in the list.
fn heading_at(place: usize) -> Heading {
    match place {
        0 => Heading::Of(Table::Regions),
        1 => Heading::Of(Table::Externs),
        2 => Heading::Of(Table::Parameters),
        3 => Heading::Of(Table::Nodes),
        4 => Heading::Of(Table::Arguments),
        5 => Heading::Of(Table::Instructions),
        6 => Heading::Memory,
        7 => Heading::Journal,
        8 => Heading::Cell,
        9 => Heading::Entry,
        10 => Heading::Position,
        _ => Heading::Loose,
    }
}

pub fn heading_of(word: &[u8]) -> Heading {
    index_of(&HEADINGS, word).map_or(Heading::Nothing, heading_at)
}
