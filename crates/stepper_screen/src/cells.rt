// Cells by region and index, where the library lays them out.
use journal::cells::CELL_WIDTH;
use operands::address::region_origin;
use tables::cells::cell_count;
use tables::rows::{REGION_WIDTH, region_at};

#[derive(Clone, Copy, PartialEq, Eq)]
pub struct Cell {
    pub kind: u64,
    pub word: u64,
}

// The cells of a region: the first, and how many.
#[derive(Clone, Copy)]
pub struct Span {
    pub first: usize,
    pub count: u64,
}

impl Span {
    pub const EMPTY: Span = Span { first: 0, count: 0 };
}

// Where a region's cells lie; none, where the regions have too many.
pub fn cells_of(regions: &[u64], r: usize) -> Span {
    let Ok(_) = cell_count(regions) else {
        return Span::EMPTY;
    };
    if r < regions.len() / REGION_WIDTH {
        let region = region_at(regions, r);
        return Span {
            first: region_origin(regions, r),
            count: region.length,
        };
    }
    Span::EMPTY
}

// What a cell holds; past the memory's end 0 and 0.
pub fn held(memory: &[u64], cell: usize) -> Cell {
    if cell < memory.len() / CELL_WIDTH {
        let at = cell * CELL_WIDTH;
        return Cell {
            kind: memory[at],
            word: memory[at + 1],
        };
    }
    Cell { kind: 0, word: 0 }
}
