ghost use Rattle.std.specs.Prelude.{◌≡◌};
ghost use Rattle.tables.specs.Tables.{tables_of};
ghost use Rattle.console_c.specs.Forward.{forwarded_words, console_forward};

use console_session::forward::forward;
use console_words::position::{position_in, write_position};
use session::answer::StepAnswer;

pub fn console_forward(
    regions: &[u64],
    externs: &[u64],
    parameters: &[u64],
    nodes: &[u64],
    arguments: &[u64],
    instructions: &[u64],
    memory: &mut [u64],
    journal: &mut [u64],
    position: &mut [u64; 3],
    reply: &[u64],
) -> u64
    ensures { forwarded_words result memory.new journal.new position.new ≡ console_forward (tables_of regions.now externs.now parameters.now nodes.now arguments.now instructions.now) memory.old journal.old position.old reply.now }
{
    let old = position_in(position);
    let answer = forward(
        regions,
        externs,
        parameters,
        nodes,
        arguments,
        instructions,
        memory,
        journal,
        old,
        reply,
    );
    match answer {
        Err((refusal, _)) => refusal.number(),
        Ok(p) => {
            write_position(position, p);
            0
        }
    }
}
