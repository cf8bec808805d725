ghost use Rattle.std.specs.Prelude.{◌≡◌};
ghost use Rattle.tables.specs.Tables.{tables_of};
ghost use Rattle.console_c.specs.Access.{accessed_words, console_access};

use console::access::access;

pub fn console_access(
    regions: &[u64],
    externs: &[u64],
    parameters: &[u64],
    nodes: &[u64],
    arguments: &[u64],
    instructions: &[u64],
    row: u64,
    reads: &mut [u64],
    writes: &mut [u64],
    counts: &mut [u64; 2],
) -> u64
    ensures { accessed_words result reads.new writes.new counts.new ≡ console_access (tables_of regions.now externs.now parameters.now nodes.now arguments.now instructions.now) row reads.old writes.old counts.old }
{
    let answer = access(
        regions,
        externs,
        parameters,
        nodes,
        arguments,
        instructions,
        row as usize,
        reads,
        writes,
    );
    match answer {
        Err(refusal) => refusal.number(),
        Ok((read, written)) => {
            counts[0] = read as u64;
            counts[1] = written as u64;
            0
        }
    }
}
