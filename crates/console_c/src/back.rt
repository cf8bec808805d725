ghost use Rattle.std.specs.Prelude.{◌≡◌};
ghost use Rattle.tables.specs.Tables.{tables_of};
ghost use Rattle.console_c.specs.Back.{went_back_words, console_back};

use console_session::back::back;
use console_words::position::{position_in, write_position};
use session::answer::StepAnswer;

pub fn console_back(
    regions: &[u64],
    externs: &[u64],
    parameters: &[u64],
    nodes: &[u64],
    arguments: &[u64],
    instructions: &[u64],
    memory: &mut [u64],
    journal: &[u64],
    position: &mut [u64; 3],
) -> u64
    ensures { went_back_words result memory.new position.new ≡ console_back (tables_of regions.now externs.now parameters.now nodes.now arguments.now instructions.now) memory.old journal.now position.old }
{
    let old = position_in(position);
    let answer = back(
        regions,
        externs,
        parameters,
        nodes,
        arguments,
        instructions,
        memory,
        journal,
        old,
    );
    match answer {
        Err((refusal, _)) => refusal.number(),
        Ok(p) => {
            write_position(position, p);
            0
        }
    }
}
