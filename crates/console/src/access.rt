// The read and write sets of one CALL.
ghost use Rattle.std.specs.Prelude.{◌≡◌};
ghost use Rattle.tables.specs.Tables.{tables_of};
ghost use Rattle.access_sets.specs.Access.{accessing};
ghost use Rattle.console.specs.Access.{access_tables};

use access_sets::access::access_call;
use loader::load::load_row;
use tables::family::CALL;
use tables::refusal::Refusal;
use tables::rows::instruction_at;

pub fn access(
    regions: &[u64],
    externs: &[u64],
    parameters: &[u64],
    nodes: &[u64],
    arguments: &[u64],
    instructions: &[u64],
    row: usize,
    reads: &mut [u64],
    writes: &mut [u64],
) -> Result<(usize, usize), Refusal>
    ensures { accessing result reads.new writes.new ≡ access_tables (tables_of regions.now externs.now parameters.now nodes.now arguments.now instructions.now) row reads.old writes.old }
{
    load_row(
        regions,
        externs,
        parameters,
        nodes,
        arguments,
        instructions,
        row,
        CALL,
    )?;
    let x = instruction_at(instructions, row);
    access_call(externs, parameters, arguments, x, reads, writes)
}
