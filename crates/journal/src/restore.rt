// Entries restored, from the last to the first.
ghost use Rattle.std.specs.Prelude.{◌≡◌, true, ◌+◌, ◌*◌, ◌/◌, ◌≤◌, ◌<◌, length};
ghost use Rattle.journal.specs.Cells.{cell_width, put};
ghost use Rattle.journal.specs.Entries.{entry_width, entry_at, entries_at};
ghost use Rattle.journal.specs.Restore.{undone, present};

use crate::cells::{Write, put_cell};
use crate::entries::ENTRY_WIDTH;

// Whether each of the `count` entries from `base` on names one of the `cells` first cells.
pub fn readable(journal: &[u64], base: usize, count: usize, cells: usize) -> bool
    requires { entry_width * (base + count) ≤ length journal.now }
    ensures { result ≡ present cells (entries_at journal.now base count) }
{
    (base..base + count).all(|entry| (journal[ENTRY_WIDTH * entry] as usize) < cells)
}

// The cell of the entry gets back its old kind and word.
fn restore_entry(cells: &mut [u64], journal: &[u64], entry: usize)
    requires { (entry_width * entry + 2 < length journal.now) × (cell_width * (entry_at journal.now entry).cell + 1 < length cells.old) }
    ensures { cells.new ≡ put cells.old (entry_at journal.now entry) }
{
    let at = ENTRY_WIDTH * entry;
    let old = Write {
        cell: journal[at] as usize,
        kind: journal[at + 1],
        word: journal[at + 2],
    };
    put_cell(cells, old);
}

// The `count` entries from `base` on are restored in reverse.
pub fn undo(cells: &mut [u64], journal: &[u64], base: usize, count: usize)
    requires count_in_bounds { entry_width * (base + count) ≤ length journal.now }
    requires count_value { present (length cells.old / 2) (entries_at journal.now base count) ≡ true }
    ensures { cells.new ≡ undone journal.now base count cells.old }
{
    for entry in (base..base + count).rev() {
        restore_entry(cells, journal, entry);
    }
}
