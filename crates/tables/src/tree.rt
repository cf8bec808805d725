// Expressions as node rows: a parent precedes its children, left first.
#![tactic(auto, unfolding(crate::specs::Tree::arity_of, crate::specs::Tree::inside, crate::specs::Cases::case_of))]

ghost use Rattle.std.specs.Prelude.{◌≡◌};
ghost use Rattle.tables.specs.Tree.{arity_of, inside};

use crate::node_tag;

// How many children a node of that tag has.
pub fn arity(tag: u64) -> usize
    ensures { result ≡ arity_of tag }
{
    match tag {
        node_tag::FUNCTION_CALL => 1,
        node_tag::INFIX => 2,
        node_tag::PREFIX => 1,
        _ => 0,
    }
}

// Whether `count` rows from `first` on lie within a table of `rows` rows.
pub fn range_inside(first: u64, count: u64, rows: usize) -> bool
    ensures { result ≡ inside first count rows }
{
    let rows = rows as u64;
    count <= rows && first <= rows - count
}
