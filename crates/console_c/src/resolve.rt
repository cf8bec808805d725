ghost use Rattle.std.specs.Prelude.{◌≡◌};
ghost use Rattle.tables.specs.Tables.{tables_of};
ghost use Rattle.console_c.specs.Resolve.{resolved_words, console_resolve};

use console::resolve::resolve;
use extern_call::rows::ResolveError;
use tables::refusal::Refusal;

pub fn console_resolve(
    regions: &[u64],
    externs: &[u64],
    parameters: &[u64],
    nodes: &[u64],
    arguments: &[u64],
    instructions: &[u64],
    row: u64,
    rows: &mut [u64],
    count: &mut [u64; 1],
) -> u64
    ensures { resolved_words result rows.new count.new ≡ console_resolve (tables_of regions.now externs.now parameters.now nodes.now arguments.now instructions.now) row rows.old count.old }
{
    let answer = resolve(
        regions,
        externs,
        parameters,
        nodes,
        arguments,
        instructions,
        row as usize,
        rows,
    );
    match answer {
        Ok(resolved) => {
            count[0] = resolved as u64;
            0
        }
        Err(turned_down) => match turned_down {
            ResolveError::Refused(refusal) => refusal.number(),
            ResolveError::Errors(errors) => {
                count[0] = errors as u64;
                Refusal::ArgumentErrors.number()
            }
        },
    }
}
