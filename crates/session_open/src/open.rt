// Open on the cells alone: the program is judged whole before a cell is written.
ghost use Rattle.std.specs.Prelude.{◌≡◌};
ghost use Rattle.tables.specs.Tables.{tables_of};
ghost use Rattle.session_open.specs.Open.{opening, program_verdict, open_cells, Openable};

use crate::verdict::program_verdict;
use crate::zero::zero_cells;
use journal::position::Position;
use session::answer::OpenAnswer;

pub fn open_cells(
    regions: &[u64],
    externs: &[u64],
    parameters: &[u64],
    nodes: &[u64],
    arguments: &[u64],
    instructions: &[u64],
    cells: &mut [u64],
) -> OpenAnswer
    requires { Openable (tables_of regions.now externs.now parameters.now nodes.now arguments.now instructions.now) cells.old }
    ensures { opening result cells.new ≡ open_cells regions.now cells.old (program_verdict (tables_of regions.now externs.now parameters.now nodes.now arguments.now instructions.now)) }
{
    program_verdict(regions, externs, parameters, nodes, arguments, instructions)?;
    zero_cells(regions, cells);
    Ok(Position::first())
}
