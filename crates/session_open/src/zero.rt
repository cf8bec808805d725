// The cells as open leaves them: zero, each of its declared kind.
ghost use Rattle.std.specs.Prelude.{◌≡◌, ◌+◌, ◌<◌};
ghost use Rattle.tables.specs.Rows.{region_rows};
ghost use Rattle.operands.specs.Kinds.{zeros};
ghost use Rattle.operands.specs.Reach.{Layout};
ghost use Rattle.session_open.specs.Zero.{ZeroedTo};

use journal::cells::{Write, put_cell};
use tables::cells::cells_in;
use tables::rows::{REGION_WIDTH, region_at};

// The cells of region r, of which the first is given; the first cell past them.
fn zero_region(regions: &[u64], cells: &mut [u64], r: usize, first: usize) -> usize
    requires { (r < region_rows regions.now) × Layout regions.now cells.old × ZeroedTo regions.now cells.old r first }
    ensures { ZeroedTo regions.now cells.new (r + 1) result }
{
    let region = region_at(regions, r);
    let past = first + cells_in(regions, r);
    for cell in first..past {
        let zero = Write {
            cell,
            kind: region.kind,
            word: 0,
        };
        put_cell(cells, zero);
    }
    past
}

pub fn zero_cells(regions: &[u64], cells: &mut [u64])
    requires { Layout regions.now cells.old }
    ensures { cells.new ≡ zeros regions.now }
{
    let rows = regions.len() / REGION_WIDTH;
    let mut first = 0;
    for r in 0..rows {
        first = zero_region(regions, cells, r, first);
    }
}
