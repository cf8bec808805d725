ghost use Rattle.std.specs.Prelude.{◌≡◌};
ghost use Rattle.tables.specs.Tables.{tables_of};
ghost use Rattle.console_c.specs.Check.{checked_words, console_check};

use console::check::check;
use console_words::error::write_error;
use tables::refusal::Refusal;
use type_rules::error::ProgramError;

pub fn console_check(
    regions: &[u64],
    externs: &[u64],
    parameters: &[u64],
    nodes: &[u64],
    arguments: &[u64],
    instructions: &[u64],
    error: &mut [u64; 6],
) -> u64
    ensures { checked_words result error.new ≡ console_check (tables_of regions.now externs.now parameters.now nodes.now arguments.now instructions.now) error.old }
{
    let answer = check(regions, externs, parameters, nodes, arguments, instructions);
    match answer {
        Ok(()) => 0,
        Err(turned_down) => match turned_down {
            ProgramError::Refused(refusal) => refusal.number(),
            ProgramError::Type(e) => {
                write_error(error, e);
                Refusal::TypeError.number()
            }
        },
    }
}
