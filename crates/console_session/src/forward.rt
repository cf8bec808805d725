// One step forward, with the extern routine's reply where the row is a CALL.
ghost use Rattle.std.specs.Prelude.{◌≡◌};
ghost use Rattle.tables.specs.Tables.{tables_of};
ghost use Rattle.session_forward.specs.Forward.{left, forward_tables};

use journal::cells::CELL_WIDTH;
use journal::position::Position;
use session::answer::StepAnswer;
use session::prepare::prepare;
use session_forward::step::step_cells;

pub fn forward(
    regions: &[u64],
    externs: &[u64],
    parameters: &[u64],
    nodes: &[u64],
    arguments: &[u64],
    instructions: &[u64],
    memory: &mut [u64],
    journal: &mut [u64],
    position: Position,
    reply: &[u64],
) -> StepAnswer
    ensures { left result memory.new journal.new ≡ forward_tables (tables_of regions.now externs.now parameters.now nodes.now arguments.now instructions.now) memory.old journal.old position reply.now }
{
    match prepare(
        regions,
        externs,
        parameters,
        nodes,
        arguments,
        instructions,
        memory.len(),
        journal.len(),
    ) {
        Err(refusal) => Err((refusal, position)),
        Ok(n) => step_cells(
            regions,
            externs,
            parameters,
            arguments,
            instructions,
            &mut memory[..CELL_WIDTH * n],
            journal,
            position,
            reply,
        ),
    }
}
