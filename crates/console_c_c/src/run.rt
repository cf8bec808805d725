ghost use Rattle.std.specs.Prelude.{◌≡◌};
ghost use Rattle.tables.specs.Tables.{tables_of};
ghost use Rattle.console_c.specs.Run.{run_words, console_run};

#[unsafe(no_mangle)]
pub extern "C" fn console_run(
    regions: &[u64],
    externs: &[u64],
    parameters: &[u64],
    nodes: &[u64],
    arguments: &[u64],
    instructions: &[u64],
    memory: &mut [u64],
    journal: &mut [u64],
    position: &mut [u64; 3],
    allowance: u64,
    ran: &mut [u64; 3],
) -> u64
    ensures { run_words result memory.new journal.new position.new ran.new ≡ console_run (tables_of regions.now externs.now parameters.now nodes.now arguments.now instructions.now) memory.old journal.old position.old allowance ran.old }
{
    console_c::run::console_run(
        regions,
        externs,
        parameters,
        nodes,
        arguments,
        instructions,
        memory,
        journal,
        position,
        allowance,
        ran,
    )
}
