// What a pass over the nodes asks of each: whether its words are allowed, and how many children it has.
#![tactic(auto, unfolding(tables::specs::Tree::arity_of, crate::specs::Allowed::node_allowed, tables::specs::Cases::case_of))]

ghost use Rattle.std.specs.Prelude.{◌≡◌};
ghost use Rattle.word_rules.specs.Children.{children_of};

use crate::allowed::node_allowed;
use tables::node_tag::{INFIX, VARIABLE};
use tables::rows::Node;
use tables::tree::arity;

// For speed a node without words comes first, and of those an infix, of which most expressions are made.
pub fn children_of(x: Node) -> Option<usize>
    ensures { result ≡ children_of x }
{
    if (x.first == 0) & (x.second == 0) {
        if x.tag == INFIX {
            return Some(2);
        }
        if x.tag <= VARIABLE {
            return Some(arity(x.tag));
        }
        return None;
    }
    if node_allowed(x) {
        return Some(0);
    }
    None
}
