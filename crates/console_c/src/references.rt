ghost use Rattle.std.specs.Prelude.{◌≡◌};
ghost use Rattle.console_c.specs.References.{listed_words, console_references};

use console::references::references;

pub fn console_references(
    nodes: &[u64],
    first: u64,
    node_count: u64,
    place: &mut [u64; 1],
    rows: &mut [u64],
    count: &mut [u64; 1],
) -> u64
    ensures { listed_words result place.new rows.new count.new ≡ console_references nodes.now first node_count place.old rows.old count.old }
{
    let old = place[0];
    let answer = references(nodes, first, node_count, old as usize, rows);
    match answer {
        Err(refusal) => refusal.number(),
        Ok(handed) => {
            place[0] = handed.place as u64;
            count[0] = handed.count as u64;
            0
        }
    }
}
