// The resolved arguments of one CALL, or its ordered argument errors.
ghost use Rattle.std.specs.Prelude.{◌≡◌};
ghost use Rattle.tables.specs.Tables.{tables_of};
ghost use Rattle.extern_call.specs.Rows.{resolving};
ghost use Rattle.console.specs.Resolve.{resolve_tables};

use extern_call::rows::{ResolveError, resolve_call};
use loader::load::load_row;
use tables::family::CALL;
use tables::rows::instruction_at;

pub fn resolve(
    regions: &[u64],
    externs: &[u64],
    parameters: &[u64],
    nodes: &[u64],
    arguments: &[u64],
    instructions: &[u64],
    row: usize,
    rows: &mut [u64],
) -> Result<usize, ResolveError>
    ensures { resolving result rows.new ≡ resolve_tables (tables_of regions.now externs.now parameters.now nodes.now arguments.now instructions.now) row rows.old }
{
    load_row(
        regions,
        externs,
        parameters,
        nodes,
        arguments,
        instructions,
        row,
        CALL,
    )?;
    let x = instruction_at(instructions, row);
    resolve_call(regions, externs, parameters, arguments, x, rows)
}
