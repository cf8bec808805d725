ghost use Rattle.std.specs.Prelude.{◌≡◌};
ghost use Rattle.tables.specs.Tables.{tables_of};
ghost use Rattle.console_c.specs.Check.{checked_words, console_check};

#[unsafe(no_mangle)]
pub extern "C" fn console_check(
    regions: &[u64],
    externs: &[u64],
    parameters: &[u64],
    nodes: &[u64],
    arguments: &[u64],
    instructions: &[u64],
    error: &mut [u64; 6],
) -> u64
    ensures { checked_words result error.new ≡ console_check (tables_of regions.now externs.now parameters.now nodes.now arguments.now instructions.now) error.old }
{
    console_c::check::console_check(
        regions,
        externs,
        parameters,
        nodes,
        arguments,
        instructions,
        error,
    )
}
