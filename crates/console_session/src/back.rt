// The last step taken back from the journal, which is only read.
ghost use Rattle.std.specs.Prelude.{◌≡◌};
ghost use Rattle.tables.specs.Tables.{tables_of};
ghost use Rattle.session_back.specs.Back.{backed, back_tables};

use journal::cells::CELL_WIDTH;
use journal::position::Position;
use session::answer::StepAnswer;
use session::prepare::prepare;
use session_back::take_back::take_back;

pub fn back(
    regions: &[u64],
    externs: &[u64],
    parameters: &[u64],
    nodes: &[u64],
    arguments: &[u64],
    instructions: &[u64],
    memory: &mut [u64],
    journal: &[u64],
    position: Position,
) -> StepAnswer
    ensures { backed result memory.new ≡ back_tables (tables_of regions.now externs.now parameters.now nodes.now arguments.now instructions.now) memory.old journal.now position }
{
    match prepare(
        regions,
        externs,
        parameters,
        nodes,
        arguments,
        instructions,
        memory.len(),
        journal.len(),
    ) {
        Err(refusal) => Err((refusal, position)),
        Ok(n) => take_back(
            instructions,
            &mut memory[..CELL_WIDTH * n],
            journal,
            position,
        ),
    }
}
