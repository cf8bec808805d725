// Refusal 2 of the walk: the words of every node and, in the same pass, whether the chosen range is one tree.
ghost use Rattle.std.specs.Prelude.{◌≡◌, ◌&&◌, ◌-◌, ◌≤◌};
ghost use Rattle.tables.specs.Rows.{node_limit, node_rows};
ghost use Rattle.tables.specs.Tree.{one_tree};
ghost use Rattle.word_rules.specs.Allowed.{nodes_allowed};
ghost use Rattle.loader.specs.Expression.{trees_allowed};

use tables::rows::{NODE_WIDTH, node_at};
use tables::tree::range_inside;
use word_rules::allowed::nodes_allowed;
use word_rules::children::children_of;

// Whether the rows from `first` to before `end` are allowed and exactly one tree.
fn tree_allowed(nodes: &[u64], first: usize, end: usize) -> bool
    requires { (first ≤ end) × (end ≤ node_rows nodes.now) × (node_rows nodes.now ≤ node_limit) }
    ensures { result ≡ trees_allowed nodes.now 1 first (end - first) }
{
    let mut trees: usize = 1;
    for row in first..end {
        if trees == 0 {
            return false;
        }
        let Some(children) = children_of(node_at(nodes, row)) else {
            return false;
        };
        trees = trees - 1 + children;
    }
    trees == 0
}

// Whether every row is allowed, and the `count` rows from `first` on are a range of the table and exactly one tree.
pub fn expression_allowed(nodes: &[u64], first: u64, count: u64) -> bool
    requires { node_rows nodes.now ≤ node_limit }
    ensures { result ≡ (nodes_allowed nodes.now && one_tree nodes.now first count) }
{
    let rows = nodes.len() / NODE_WIDTH;
    if !range_inside(first, count, rows) {
        return false;
    }
    let start = first as usize;
    let end = (first + count) as usize;
    tree_allowed(nodes, start, end)
        & (nodes_allowed(nodes, 0, start) & nodes_allowed(nodes, end, rows))
}
