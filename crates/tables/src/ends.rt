// Where the tree of each node ends, from the ends of those after it: frames may share nodes, and then each asks for one of these ends.
ghost use Rattle.std.specs.Prelude.{◌≡◌, ◌+◌, ◌<◌};
ghost use Rattle.tables.specs.Rows.{node_rows, node_tag};
ghost use Rattle.tables.specs.Tree.{arity_of, one_tree};
ghost use Rattle.tables.specs.Ends.{TreeEnd, EndsFrom};

use crate::rows::NODE_WIDTH;
use crate::tree::range_inside;

// The end of the tree of node i, which has so many children: the first child's tree starts at the next node and ends at `next`, where the second's starts.
pub fn tree_end(nodes: &[u64], ends: &[u16], i: usize, next: usize, children: usize) -> usize
    requires { (i < node_rows nodes.now) × TreeEnd nodes.now (i + 1) next × EndsFrom nodes.now ends.now (i + 1) × (children ≡ arity_of (node_tag nodes.now i)) }
    ensures { TreeEnd nodes.now i result }
{
    if children == 0 {
        return i + 1;
    }
    if children == 1 {
        return next;
    }
    usize::from(ends[next])
}

// Whether the `count` rows from `first` on are a range of the table and exactly one tree. No rows are none, since a tree ends after its first node.
pub fn ends_with(nodes: &[u64], ends: &[u16], first: u64, count: u64) -> bool
    requires { EndsFrom nodes.now ends.now 0 }
    ensures { result ≡ one_tree nodes.now first count }
{
    range_inside(first, count, nodes.len() / NODE_WIDTH)
        && u64::from(ends[first as usize]) == first + count
}
