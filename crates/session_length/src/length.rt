// The public call: how many journal entries are enough for every order of keys. No buffer is lent, so none is looked at.
ghost use Rattle.std.specs.Prelude.{◌≡◌};
ghost use Rattle.tables.specs.Tables.{tables_of};
ghost use Rattle.session_length.specs.Length.{length_tables};

use crate::entries::journal_entries;
use session::prepare::tables_look;
use session_open::verdict::program_verdict;
use type_rules::error::ProgramError;

pub fn journal_length(
    regions: &[u64],
    externs: &[u64],
    parameters: &[u64],
    nodes: &[u64],
    arguments: &[u64],
    instructions: &[u64],
) -> Result<usize, ProgramError>
    ensures { result ≡ length_tables (tables_of regions.now externs.now parameters.now nodes.now arguments.now instructions.now) }
{
    tables_look(regions, externs, parameters, nodes, arguments, instructions)?;
    program_verdict(regions, externs, parameters, nodes, arguments, instructions)?;
    Ok(journal_entries(instructions))
}
