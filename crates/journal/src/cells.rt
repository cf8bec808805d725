// Cells in lent memory, two words each: kind, word.
#![tactic(auto, unfolding(crate::specs::Cells::put))]

ghost use Rattle.std.specs.Prelude.{◌≡◌, ◌+◌, ◌*◌, ◌<◌, length};
ghost use Rattle.journal.specs.Cells.{cell_width, put};

// Words in a cell.
pub const CELL_WIDTH: usize = 2;

// A cell's number, with a kind and a word: what a step writes there, or what the cell held.
#[derive(Drop)]
pub struct Write {
    pub cell: usize,
    pub kind: u64,
    pub word: u64,
}

// The cell gets its kind and word.
pub fn put_cell(cells: &mut [u64], w: Write)
    requires { cell_width * w.cell + 1 < length cells.old }
    ensures { cells.new ≡ put cells.old w }
{
    let at = CELL_WIDTH * w.cell;
    cells[at] = w.kind;
    cells[at + 1] = w.word;
}
