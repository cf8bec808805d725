// The memory references of an expression by lists: as many steps of the walk as a lent list has room for.
#![tactic(auto, unfolding(crate::specs::Batch::hand_out, crate::specs::Batch::hand_out_in, crate::specs::Batch::batch_in))]

ghost use Rattle.std.specs.Prelude.{◌≡◌, true, ◌+◌, ◌≤◌, length};
ghost use Rattle.std.proofs.lemmas.List.Edits.{sets};
ghost use Rattle.tables.specs.Tree.{one_tree};
ghost use Rattle.memory.specs.Batch.{reference_width, reference_words, handing, hand_out, hand_out_in};

use crate::{MemoryReference, next_from, nodes_in};

// Words in a row of a list of references: name, index.
pub const REFERENCE_WIDTH: usize = 2;

// How many references were put into a list, and the place to go on from.
#[derive(Drop)]
pub struct Handed {
    pub count: usize,
    pub place: usize,
}

// A reference's row, from word `at` on.
fn put_reference(rows: &mut [u64], at: usize, reference: MemoryReference)
    requires { at + reference_width ≤ length rows.old }
    ensures { rows.new ≡ sets rows.old at (reference_words reference) }
{
    rows[at] = reference.name;
    rows[at + 1] = reference.index;
}

// The next references from the place on, as many as the list has room for.
fn references_from(nodes: &[u64], place: usize, rows: &mut [u64]) -> Handed
    ensures { handing result rows.new ≡ hand_out nodes.now place rows.old }
{
    let room = rows.len() / REFERENCE_WIDTH;
    let mut passed = place;
    for count in 0..room {
        let stepped = next_from(nodes, passed);
        passed = stepped.place;
        let Some(reference) = stepped.found else {
            return Handed {
                count,
                place: passed,
            };
        };
        put_reference(rows, count * REFERENCE_WIDTH, reference);
    }
    Handed {
        count: room,
        place: passed,
    }
}

// The same in the tree that the `count` rows from `first` on are.
pub fn references_in(
    nodes: &[u64],
    first: u64,
    count: u64,
    place: usize,
    rows: &mut [u64],
) -> Handed
    requires { one_tree nodes.now first count ≡ true }
    ensures { handing result rows.new ≡ hand_out_in nodes.now first count place rows.old }
{
    references_from(nodes_in(nodes, first, count), place, rows)
}
