ghost use Rattle.std.specs.Prelude.{◌≡◌};
ghost use Rattle.console_c.specs.Reference.{referred_words, console_reference};

#[unsafe(no_mangle)]
pub extern "C" fn console_reference(
    nodes: &[u64],
    first: u64,
    node_count: u64,
    place: &mut [u64; 1],
    found: &mut [u64; 3],
) -> u64
    ensures { referred_words result place.new found.new ≡ console_reference nodes.now first node_count place.old found.old }
{
    console_c::reference::console_reference(nodes, first, node_count, place, found)
}
