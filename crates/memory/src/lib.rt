// The memory references of an expression, handed out one after the other: quil-rs's iterator `MemoryReferences`, whose stack is a place in the parent-first node rows.
// Translated from quil-rs, program/memory.rs (Apache-2.0), and changed: see NOTICE.
#![tactic(auto, unfolding(crate::specs::References::next_of, crate::specs::References::next_in))]

pub mod batch;

ghost use Rattle.std.specs.Prelude.{◌≡◌, true};
ghost use Rattle.tables.specs.Tree.{one_tree};
ghost use Rattle.memory.specs.References.{next_of, nodes_in, next_in};
ghost use Rattle.memory.specs.Reader.{reader_at, step_of, stepped};

use tables::node_tag::ADDRESS;
use tables::rows::{NODE_WIDTH, node_at};

#[derive(Drop)]
pub struct MemoryReference {
    pub name: u64,
    pub index: u64,
}

// What was handed out, and the place to go on from: how many nodes were passed.
#[derive(Drop)]
pub struct Stepped {
    pub found: Option<MemoryReference>,
    pub place: usize,
}

// The first reference at or after the place.
fn next_at(nodes: &[u64], place: usize) -> Stepped
    ensures { result ≡ next_of nodes.now place }
{
    let rows = nodes.len() / NODE_WIDTH;
    for i in place..rows {
        let node = node_at(nodes, i);
        // An address's words are its name and its index.
        if node.tag == ADDRESS {
            let reference = MemoryReference {
                name: node.first,
                index: node.second,
            };
            return Stepped {
                found: Some(reference),
                place: i + 1,
            };
        }
    }
    Stepped {
        found: None,
        place: rows,
    }
}

// A reader over the lent nodes.
#[derive(Drop)]
pub struct MemoryReferences<'a> {
    pub nodes: &'a [u64],
    pub place: usize,
}

impl<'a> MemoryReferences<'a> {
    pub fn new(nodes: &'a [u64], place: usize) -> MemoryReferences<'a>
        ensures { result ≡ reader_at nodes.entry place }
    {
        MemoryReferences { nodes, place }
    }

    // As the iterator's `next`: the reader is lent, and its place moves on.
    pub fn next(&mut self) -> Option<MemoryReference>
        ensures { (result ≡ (step_of self.old).found) × (self.new ≡ stepped self.old) }
    {
        let stepped = next_at(self.nodes, self.place);
        self.place = stepped.place;
        stepped.found
    }
}

// One step of a reader at the place. Its parameters are plain, so its callers' proofs are no walks by hand.
fn next_from(nodes: &[u64], place: usize) -> Stepped
    ensures { result ≡ next_of nodes.now place }
{
    let mut reader = MemoryReferences::new(nodes, place);
    let found = reader.next();
    Stepped {
        found,
        place: reader.place,
    }
}

// The nodes that the `count` rows from `first` on are, which are a tree.
fn nodes_in(nodes: &[u64], first: u64, count: u64) -> &[u64]
    requires { one_tree nodes.now first count ≡ true }
    ensures { result.now ≡ nodes_in nodes.now first count }
{
    let start = first as usize * NODE_WIDTH;
    let end = (first + count) as usize * NODE_WIDTH;
    &nodes[start..end]
}

// One step in the tree that the `count` rows from `first` on are: `place` counts its nodes that were passed, 0 at first.
pub fn next_in(nodes: &[u64], first: u64, count: u64, place: usize) -> Stepped
    requires { one_tree nodes.now first count ≡ true }
    ensures { result ≡ next_in nodes.now first count place }
{
    next_from(nodes_in(nodes, first, count), place)
}
