ghost use Rattle.std.specs.Prelude.{◌≡◌};
ghost use Rattle.tables.specs.Tables.{tables_of};
ghost use Rattle.console_c.specs.JournalLength.{length_words, console_journal_length};

use console_words::error::write_error;
use session_length::length::journal_length;
use tables::refusal::Refusal;
use type_rules::error::ProgramError;

pub fn console_journal_length(
    regions: &[u64],
    externs: &[u64],
    parameters: &[u64],
    nodes: &[u64],
    arguments: &[u64],
    instructions: &[u64],
    entries: &mut [u64; 1],
    error: &mut [u64; 6],
) -> u64
    ensures { length_words result entries.new error.new ≡ console_journal_length (tables_of regions.now externs.now parameters.now nodes.now arguments.now instructions.now) entries.old error.old }
{
    let answer = journal_length(regions, externs, parameters, nodes, arguments, instructions);
    match answer {
        Ok(n) => {
            entries[0] = n as u64;
            0
        }
        Err(turned_down) => match turned_down {
            ProgramError::Refused(refusal) => refusal.number(),
            ProgramError::Type(e) => {
                write_error(error, e);
                Refusal::TypeError.number()
            }
        },
    }
}
