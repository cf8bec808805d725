// Refusal 10: the number of cells.
#![tactic(auto, unfolding(crate::specs::Cells::first_cell, crate::specs::Sum::sum_to, crate::specs::Cells::cell_count, crate::specs::Cells::cells_of, crate::specs::Outcome::need))]

ghost use Rattle.std.specs.Prelude.{◌≡◌, ◌<◌};
ghost use Rattle.tables.specs.Rows.{region_rows};
ghost use Rattle.tables.specs.Cells.{cells_in, cells_of};

use crate::refusal::Refusal;
use crate::rows::{REGION_WIDTH, region_at};

pub const CELL_LIMIT: usize = 4096;

// What a region adds to the memory.
pub fn cells_in(regions: &[u64], r: usize) -> usize
    requires { r < region_rows regions.now }
    ensures { result ≡ cells_in regions.now r }
{
    let region = region_at(regions, r);
    region.length as usize
}

// The sum of what the regions add. It never passes the limit, so it cannot wrap.
pub fn cell_count(regions: &[u64]) -> Result<usize, Refusal>
    ensures { result ≡ cells_of regions.now }
{
    let rows = regions.len() / REGION_WIDTH;
    let mut cells: usize = 0;
    for i in 0..rows {
        let own = cells_in(regions, i);
        if CELL_LIMIT - cells < own {
            return Err(Refusal::TooManyCells);
        }
        cells += own;
    }
    Ok(cells)
}
