ghost use Rattle.std.specs.Prelude.{◌≡◌};
ghost use Rattle.console_c.specs.References.{listed_words, console_references};

#[unsafe(no_mangle)]
pub extern "C" fn console_references(
    nodes: &[u64],
    first: u64,
    node_count: u64,
    place: &mut [u64; 1],
    rows: &mut [u64],
    count: &mut [u64; 1],
) -> u64
    ensures { listed_words result place.new rows.new count.new ≡ console_references nodes.now first node_count place.old rows.old count.old }
{
    console_c::references::console_references(nodes, first, node_count, place, rows, count)
}
