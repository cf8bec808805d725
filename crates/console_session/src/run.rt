// Steps forward, up to an allowance: to the end, before a CALL, or to a refusal.
ghost use Rattle.std.specs.Prelude.{◌≡◌};
ghost use Rattle.tables.specs.Tables.{tables_of};
ghost use Rattle.session_run.specs.Run.{running, run_tables};

use journal::cells::CELL_WIDTH;
use journal::position::Position;
use session::answer::RunAnswer;
use session::prepare::prepare;
use session_run::run::run_cells;

pub fn run(
    regions: &[u64],
    externs: &[u64],
    parameters: &[u64],
    nodes: &[u64],
    arguments: &[u64],
    instructions: &[u64],
    memory: &mut [u64],
    journal: &mut [u64],
    position: Position,
    allowance: u64,
) -> RunAnswer
    ensures { running result memory.new journal.new ≡ run_tables (tables_of regions.now externs.now parameters.now nodes.now arguments.now instructions.now) memory.old journal.old position allowance }
{
    match prepare(
        regions,
        externs,
        parameters,
        nodes,
        arguments,
        instructions,
        memory.len(),
        journal.len(),
    ) {
        Err(refusal) => Err((refusal, position)),
        Ok(n) => run_cells(
            regions,
            externs,
            parameters,
            arguments,
            instructions,
            &mut memory[..CELL_WIDTH * n],
            journal,
            position,
            allowance,
        ),
    }
}
