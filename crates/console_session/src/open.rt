// Open: the cells zeroed, and the first position.
ghost use Rattle.std.specs.Prelude.{◌≡◌, length};
ghost use Rattle.tables.specs.Tables.{tables_of};
ghost use Rattle.session_open.specs.Open.{opening, open_tables};

use journal::cells::CELL_WIDTH;
use session::answer::OpenAnswer;
use session::prepare::prepare;
use session_open::open::open_cells;

// Of the journal only its length is looked at.
pub fn open(
    regions: &[u64],
    externs: &[u64],
    parameters: &[u64],
    nodes: &[u64],
    arguments: &[u64],
    instructions: &[u64],
    memory: &mut [u64],
    journal: &[u64],
) -> OpenAnswer
    ensures { opening result memory.new ≡ open_tables (tables_of regions.now externs.now parameters.now nodes.now arguments.now instructions.now) memory.old (length journal.now) }
{
    let cells = prepare(
        regions,
        externs,
        parameters,
        nodes,
        arguments,
        instructions,
        memory.len(),
        journal.len(),
    )?;
    open_cells(
        regions,
        externs,
        parameters,
        nodes,
        arguments,
        instructions,
        &mut memory[..CELL_WIDTH * cells],
    )
}
