// Refusal 2 of the nodes and, in the same pass, where each one's tree ends.
ghost use Rattle.std.specs.Prelude.{◌≡◌, true, ◌+◌, ◌<◌, ◌≤◌, length};
ghost use Rattle.tables.specs.Rows.{node_rows, node_limit};
ghost use Rattle.tables.specs.Ends.{EndsFrom};
ghost use Rattle.word_rules.specs.Allowed.{nodes_allowed};

use crate::children::children_of;
use tables::ends::tree_end;
use tables::rows::{NODE_WIDTH, node_at};

// From the last node to the first. A tree that does not end in the table is told to end one past the row after the last; none starts there, nor at that row.
pub fn nodes_end(nodes: &[u64], ends: &mut [u16]) -> bool
    requires { (node_rows nodes.now ≤ node_limit) × (node_rows nodes.now + 1 < length ends.old) }
    ensures { (result ≡ nodes_allowed nodes.now) × (result ≡ true → EndsFrom nodes.now ends.new 0) }
{
    let rows = nodes.len() / NODE_WIDTH;
    let mut end = rows + 1;
    ends[end] = end as u16;
    ends[rows] = end as u16;
    for row in (0..rows).rev() {
        let Some(children) = children_of(node_at(nodes, row)) else {
            return false;
        };
        end = tree_end(nodes, ends, row, end, children);
        ends[row] = end as u16;
    }
    true
}
