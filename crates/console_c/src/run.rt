ghost use Rattle.std.specs.Prelude.{◌≡◌};
ghost use Rattle.tables.specs.Tables.{tables_of};
ghost use Rattle.console_c.specs.Run.{run_words, console_run};

use console_session::run::run;
use console_words::position::{position_in, write_position};
use console_words::ran::write_ran;
use session::answer::RunAnswer;

pub fn console_run(
    regions: &[u64],
    externs: &[u64],
    parameters: &[u64],
    nodes: &[u64],
    arguments: &[u64],
    instructions: &[u64],
    memory: &mut [u64],
    journal: &mut [u64],
    position: &mut [u64; 3],
    allowance: u64,
    ran: &mut [u64; 3],
) -> u64
    ensures { run_words result memory.new journal.new position.new ran.new ≡ console_run (tables_of regions.now externs.now parameters.now nodes.now arguments.now instructions.now) memory.old journal.old position.old allowance ran.old }
{
    let old = position_in(position);
    let answer = run(
        regions,
        externs,
        parameters,
        nodes,
        arguments,
        instructions,
        memory,
        journal,
        old,
        allowance,
    );
    match answer {
        Err((refusal, _)) => refusal.number(),
        Ok((steps, stop, p)) => {
            write_position(position, p);
            write_ran(ran, steps, stop);
            0
        }
    }
}
