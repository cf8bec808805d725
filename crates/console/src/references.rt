// The references of one expression, one at a time or by lists.
ghost use Rattle.std.specs.Prelude.{◌≡◌};
ghost use Rattle.console.specs.References.{references_table, referencing, references_list};

use loader::load::load_nodes;
use memory::batch::{Handed, references_in};
use memory::{Stepped, next_in};
use tables::refusal::Refusal;

// The next reference of the tree of `count` nodes from `first` on, of which `place` nodes were passed.
pub fn memory_references(
    nodes: &[u64],
    first: u64,
    count: u64,
    place: usize,
) -> Result<Stepped, Refusal>
    ensures { result ≡ references_table nodes.now first count place }
{
    load_nodes(nodes, first, count)?;
    Ok(next_in(nodes, first, count, place))
}

// The next references of the same tree from the place on, as many as the list has room for.
pub fn references(
    nodes: &[u64],
    first: u64,
    count: u64,
    place: usize,
    rows: &mut [u64],
) -> Result<Handed, Refusal>
    ensures { referencing result rows.new ≡ references_list nodes.now first count place rows.old }
{
    load_nodes(nodes, first, count)?;
    Ok(references_in(nodes, first, count, place, rows))
}
