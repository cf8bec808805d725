// What open finds against a program whose tables are loaded, whatever buffers are lent.
ghost use Rattle.std.specs.Prelude.{◌≡◌};
ghost use Rattle.tables.specs.Tables.{tables_of};
ghost use Rattle.loader.specs.Load.{load_look};
ghost use Rattle.session_open.specs.Open.{program_verdict};

use crate::program::program_look;
use type_check::program::check_program;
use type_rules::error::ProgramError;

// 5, 9, 20, 21, 22, then 6, 7 and 8 by row.
pub fn program_verdict(
    regions: &[u64],
    externs: &[u64],
    parameters: &[u64],
    nodes: &[u64],
    arguments: &[u64],
    instructions: &[u64],
) -> Result<(), ProgramError>
    requires { load_look (tables_of regions.now externs.now parameters.now nodes.now arguments.now instructions.now) ≡ Ok tt }
    ensures { result ≡ program_verdict (tables_of regions.now externs.now parameters.now nodes.now arguments.now instructions.now) }
{
    check_program(regions, nodes, instructions)?;
    program_look(regions, externs, parameters, arguments, instructions)?;
    Ok(())
}
