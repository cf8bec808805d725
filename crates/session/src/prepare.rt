// The looks that open, forward, back and run begin with and, of the tables alone, journal_length.
ghost use Rattle.std.specs.Prelude.{◌≡◌, ◌≤◌};
ghost use Rattle.tables.specs.Tables.{tables_of};
ghost use Rattle.tables.specs.Cells.{cell_limit};
ghost use Rattle.session.specs.Prepare.{tables_look, buffers_fit, prepared_of};

use journal::cells::CELL_WIDTH;
use journal::entries::{ENTRY_LIMIT, ENTRY_WIDTH};
use loader::load::load_tables;
use tables::cells::cell_count;
use tables::refusal::Refusal;

// 1, 2, 3 and 10: the tables alone.
pub fn tables_look(
    regions: &[u64],
    externs: &[u64],
    parameters: &[u64],
    nodes: &[u64],
    arguments: &[u64],
    instructions: &[u64],
) -> Result<usize, Refusal>
    ensures { result ≡ tables_look (tables_of regions.now externs.now parameters.now nodes.now arguments.now instructions.now) }
{
    load_tables(regions, externs, parameters, nodes, arguments, instructions)?;
    cell_count(regions)
}

// Whether memory and journal, so many words each, are long enough, whole and not too long.
fn buffers_fit(cells: usize, memory: usize, journal: usize) -> bool
    requires { cells ≤ cell_limit }
    ensures { result ≡ buffers_fit cells memory journal }
{
    (CELL_WIDTH * cells <= memory)
        & ((journal % ENTRY_WIDTH == 0) & (journal / ENTRY_WIDTH <= ENTRY_LIMIT))
}

// 1, 2, 3, 10 and 4, of memory and journal by their lengths in words.
pub fn prepare(
    regions: &[u64],
    externs: &[u64],
    parameters: &[u64],
    nodes: &[u64],
    arguments: &[u64],
    instructions: &[u64],
    memory: usize,
    journal: usize,
) -> Result<usize, Refusal>
    ensures { result ≡ prepared_of (tables_of regions.now externs.now parameters.now nodes.now arguments.now instructions.now) memory journal }
{
    let cells = tables_look(regions, externs, parameters, nodes, arguments, instructions)?;
    if !buffers_fit(cells, memory, journal) {
        return Err(Refusal::BufferSize);
    }
    Ok(cells)
}
