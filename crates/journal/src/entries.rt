// A step's entries in the lent journal, three words each: one for every write, then the closing entry.
#![tactic(auto, unfolding(crate::specs::Entries::closing, crate::specs::Entries::entered))]

ghost use Rattle.std.specs.Prelude.{◌≡◌, [], ◌∷◌, ◌+◌, ◌*◌, ◌<◌, length};
ghost use Rattle.journal.specs.Cells.{cell_width, put, held};
ghost use Rattle.journal.specs.Entries.{entry_width, words_of, closing, changes_at, row_left_at, entered};

use crate::cells::{CELL_WIDTH, Write, put_cell};

// Words in an entry.
pub const ENTRY_WIDTH: usize = 3;

// The most entries of a journal.
pub const ENTRY_LIMIT: usize = 2048;

fn put_entry(journal: &mut [u64], entry: usize, first: u64, second: u64, third: u64)
    requires { entry_width * entry + 2 < length journal.old }
    ensures { journal.new ≡ entered journal.old entry (first ∷ second ∷ third ∷ []) }
{
    let at = ENTRY_WIDTH * entry;
    journal[at] = first;
    journal[at + 1] = second;
    journal[at + 2] = third;
}

// A write with its entry: what the cell holds is entered before the cell is written.
pub fn write_cell(cells: &mut [u64], journal: &mut [u64], entry: usize, w: Write)
    requires { (cell_width * w.cell + 1 < length cells.old) × (entry_width * entry + 2 < length journal.old) }
    ensures cells_after { cells.new ≡ put cells.old w }
    ensures journal_after { journal.new ≡ entered journal.old entry (words_of (held cells.old w.cell)) }
{
    let cell = w.cell;
    let at = CELL_WIDTH * cell;
    put_entry(journal, entry, cell as u64, cells[at], cells[at + 1]);
    put_cell(cells, w);
}

// The closing entry of a step of a row, with so many changes.
pub fn close(journal: &mut [u64], entry: usize, changes: usize, row: usize)
    requires { entry_width * entry + 2 < length journal.old }
    ensures { journal.new ≡ entered journal.old entry (closing changes row) }
{
    put_entry(journal, entry, changes as u64, row as u64, 0);
}

// The change count of the closing entry there.
pub fn changes_at(journal: &[u64], entry: usize) -> usize
    requires { entry_width * entry < length journal.now }
    ensures { result ≡ changes_at journal.now entry }
{
    journal[ENTRY_WIDTH * entry] as usize
}

// The row left, of the closing entry there.
pub fn row_left_at(journal: &[u64], entry: usize) -> usize
    requires { entry_width * entry + 1 < length journal.now }
    ensures { result ≡ row_left_at journal.now entry }
{
    journal[ENTRY_WIDTH * entry + 1] as usize
}
