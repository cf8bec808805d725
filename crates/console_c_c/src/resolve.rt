ghost use Rattle.std.specs.Prelude.{◌≡◌};
ghost use Rattle.tables.specs.Tables.{tables_of};
ghost use Rattle.console_c.specs.Resolve.{resolved_words, console_resolve};

#[unsafe(no_mangle)]
pub extern "C" fn console_resolve(
    regions: &[u64],
    externs: &[u64],
    parameters: &[u64],
    nodes: &[u64],
    arguments: &[u64],
    instructions: &[u64],
    row: u64,
    rows: &mut [u64],
    count: &mut [u64; 1],
) -> u64
    ensures { resolved_words result rows.new count.new ≡ console_resolve (tables_of regions.now externs.now parameters.now nodes.now arguments.now instructions.now) row rows.old count.old }
{
    console_c::resolve::console_resolve(
        regions,
        externs,
        parameters,
        nodes,
        arguments,
        instructions,
        row,
        rows,
        count,
    )
}
