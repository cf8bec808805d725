ghost use Rattle.std.specs.Prelude.{◌≡◌, length};
ghost use Rattle.tables.specs.Tables.{tables_of};
ghost use Rattle.console_c.specs.Open.{opened_words, console_open};

use console_session::open::open;
use console_words::error::write_error;
use console_words::position::write_position;
use session::answer::OpenAnswer;
use tables::refusal::Refusal;
use type_rules::error::ProgramError;

pub fn console_open(
    regions: &[u64],
    externs: &[u64],
    parameters: &[u64],
    nodes: &[u64],
    arguments: &[u64],
    instructions: &[u64],
    memory: &mut [u64],
    journal: &[u64],
    position: &mut [u64; 3],
    error: &mut [u64; 6],
) -> u64
    ensures { opened_words result memory.new position.new error.new ≡ console_open (tables_of regions.now externs.now parameters.now nodes.now arguments.now instructions.now) memory.old (length journal.now) position.old error.old }
{
    let answer = open(
        regions,
        externs,
        parameters,
        nodes,
        arguments,
        instructions,
        memory,
        journal,
    );
    match answer {
        Ok(p) => {
            write_position(position, p);
            0
        }
        Err(turned_down) => match turned_down {
            ProgramError::Refused(refusal) => refusal.number(),
            ProgramError::Type(e) => {
                write_error(error, e);
                Refusal::TypeError.number()
            }
        },
    }
}
