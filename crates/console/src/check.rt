// The type check of a program.
ghost use Rattle.std.specs.Prelude.{◌≡◌};
ghost use Rattle.tables.specs.Tables.{tables_of};
ghost use Rattle.console.specs.Check.{check_tables};

use loader::load::load_tables;
use type_check::program::check_program;
use type_rules::error::ProgramError;

pub fn check(
    regions: &[u64],
    externs: &[u64],
    parameters: &[u64],
    nodes: &[u64],
    arguments: &[u64],
    instructions: &[u64],
) -> Result<(), ProgramError>
    ensures { result ≡ check_tables (tables_of regions.now externs.now parameters.now nodes.now arguments.now instructions.now) }
{
    load_tables(regions, externs, parameters, nodes, arguments, instructions)?;
    check_program(regions, nodes, instructions)?;
    Ok(())
}
