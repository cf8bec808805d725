// A frame's expression: each of its nodes must be real.
// Translated from quil-rs, program/type_check.rs (Apache-2.0), and changed: see NOTICE.
ghost use Rattle.std.specs.Prelude.{◌≡◌, ◌+◌, ◌≤◌};
ghost use Rattle.tables.specs.Rows.{node_rows};
ghost use Rattle.type_rules.specs.Judgement.{verdict_at};
ghost use Rattle.type_rules.specs.Codes.{code_of};
ghost use Rattle.type_check.specs.Frame.{address_rule, number_verdict, node_verdict, node_fault};
ghost use Rattle.type_check.specs.Looked.{tree_check, frame_check};

use reals::real::above_epsilon;
use tables::lookup::lookup_region;
use tables::node_tag;
use tables::rows::{Instruction, Node, node_at};
use type_rules::code::{IMAGINARY, NODE, VARIABLE};
use type_rules::error::{TypeError, real_value_required, undefined_memory_reference};
use type_rules::rules::kind_at;
use words::kind::REAL;

#[derive(Drop)]
pub enum NodeError {
    Undefined,
    NotReal(u64),
}

#[tactic(auto, unfolding(crate::specs::Frame::address_rule, type_rules::specs::Codes::code_of, type_rules::specs::Codes::kind_code))]
fn check_address(regions: &[u64], name: u64) -> Result<(), NodeError>
    ensures { result ≡ address_rule (code_of regions.now name) }
{
    let Some(region) = lookup_region(regions, name) else {
        return Err(NodeError::Undefined);
    };
    let kind = kind_at(regions, region);
    match kind {
        REAL => Ok(()),
        _ => Err(NodeError::NotReal(kind)),
    }
}

#[tactic(auto, unfolding(crate::specs::Frame::number_verdict))]
fn check_number(imaginary: u64) -> Result<(), NodeError>
    ensures { result ≡ number_verdict imaginary }
{
    if above_epsilon(imaginary) {
        Err(NodeError::NotReal(IMAGINARY))
    } else {
        Ok(())
    }
}

// One node by itself; its children are rows of their own.
#[tactic(auto, unfolding(crate::specs::Frame::node_verdict, tables::specs::Cases::case_of))]
fn should_be_real(regions: &[u64], node: Node) -> Result<(), NodeError>
    ensures { result ≡ node_verdict regions.now node }
{
    let tag = node.tag;
    match tag {
        node_tag::ADDRESS => check_address(regions, node.first),
        node_tag::NUMBER => check_number(node.second),
        node_tag::VARIABLE => Err(NodeError::NotReal(VARIABLE)),
        _ => Ok(()),
    }
}

// The first failing node by its place, counted from 0, and how many nodes were looked at.
#[derive(Drop)]
pub struct TreeCheck {
    pub verdict: Result<(), (u64, NodeError)>,
    pub looked: u64,
}

// The first failing node of the `count` rows from `first` on, left before right being row order; the nodes after it are not looked at.
fn check_tree(regions: &[u64], nodes: &[u64], first: usize, count: usize) -> TreeCheck
    requires { first + count ≤ node_rows nodes.now }
    ensures { result ≡ tree_check regions.now nodes.now first count }
{
    let mut looked = 0;
    for place in 0..count {
        let judged = should_be_real(regions, node_at(nodes, first + place));
        looked += 1;
        if let Err(error) = judged {
            return TreeCheck {
                verdict: Err((place as u64, error)),
                looked,
            };
        }
    }
    TreeCheck {
        verdict: Ok(()),
        looked,
    }
}

fn node_error(row: u64, spot: u64, error: NodeError) -> Result<(), TypeError>
    ensures { result ≡ verdict_at row (node_fault spot error) }
{
    match error {
        NodeError::Undefined => undefined_memory_reference(row, spot),
        NodeError::NotReal(found) => real_value_required(row, spot, found),
    }
}

// A frame's verdict, and how many nodes of its expression were looked at.
#[derive(Drop)]
pub struct FrameCheck {
    pub verdict: Result<(), TypeError>,
    pub looked: u64,
}

pub fn check_frame(regions: &[u64], nodes: &[u64], row: u64, x: Instruction) -> FrameCheck
    requires { x.first_name + x.first_index ≤ node_rows nodes.now }
    ensures { result ≡ frame_check regions.now nodes.now row x }
{
    let tree = check_tree(
        regions,
        nodes,
        x.first_name as usize,
        x.first_index as usize,
    );
    let verdict = tree.verdict;
    let Err((place, error)) = verdict else {
        return FrameCheck {
            verdict: Ok(()),
            looked: tree.looked,
        };
    };
    FrameCheck {
        verdict: node_error(row, NODE + place, error),
        looked: tree.looked,
    }
}
