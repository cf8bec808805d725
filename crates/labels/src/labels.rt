// A label's row; and refusal 20, of the whole program.
#![tactic(auto, unfolding(crate::specs::Labels::labels_fit))]

ghost use Rattle.std.specs.Prelude.{◌≡◌, true, ◌+◌, ◌≤◌, ◌<◌, length};
ghost use Rattle.tables.specs.Rows.{instruction_rows, instruction_limit};
ghost use Rattle.labels.specs.Labels.{is_jump, label_row, new_label, has_target, labels_distinct, targets_present, unlabelled, labels_fit};
ghost use Rattle.labels.specs.Chains.{bucket_count, Chains, ChainedAll};
ghost use Rattle.labels.specs.Targets.{Targets, LabelsKnown};

use crate::chains::{BUCKETS, chain, has_label, labelled_row};
use tables::family;
use tables::rows::{INSTRUCTION_LIMIT, INSTRUCTION_WIDTH, Instruction, instruction_at};

// No row's number, and no 0, since to clear the room would be a call of memset, and the library calls nothing.
pub const NO_ROW: u16 = INSTRUCTION_LIMIT as u16;

// The row of a label, or the number of rows where no row has it.
pub fn label_row(instructions: &[u64], label: u64) -> usize
    ensures { result ≡ label_row instructions.now label }
{
    let rows = instructions.len() / INSTRUCTION_WIDTH;
    (0..rows)
        .find(|row| has_label(instructions, *row, label))
        .unwrap_or(rows)
}

// Whether a row brings no label twice; a LABEL row that does not is chained.
fn chain_row(instructions: &[u64], heads: &mut [u16], links: &mut [u16], row: usize) -> bool
    requires { (row < instruction_rows instructions.now) × (instruction_rows instructions.now ≤ instruction_limit) × Chains instructions.now heads.old links.old row }
    ensures value { result ≡ new_label instructions.now row }
    ensures chains { result ≡ true → Chains instructions.now heads.new links.new (row + 1) }
{
    let x = instruction_at(instructions, row);
    if x.family != family::LABEL {
        return true;
    }
    if labelled_row(instructions, heads, links, row, x.second_name) < row {
        return false;
    }
    chain(heads, links, row, x.second_name);
    true
}

// Whether no label is on two rows; all LABEL rows are then chained.
fn chain_labels(instructions: &[u64], heads: &mut [u16], links: &mut [u16]) -> bool
    requires { (instruction_rows instructions.now ≤ instruction_limit) × (length heads.old ≡ bucket_count) × (length links.old ≡ instruction_limit) }
    ensures value { result ≡ labels_distinct instructions.now }
    ensures chains { result ≡ true → Chains instructions.now heads.new links.new (instruction_rows instructions.now) }
{
    let rows = instructions.len() / INSTRUCTION_WIDTH;
    for row in 0..rows {
        if !chain_row(instructions, heads, links, row) {
            return false;
        }
    }
    true
}

pub fn is_jump(x: Instruction) -> bool
    ensures { result ≡ is_jump x }
{
    (x.family == family::JUMP)
        | ((x.family == family::JUMP_WHEN) | (x.family == family::JUMP_UNLESS))
}

// Whether a jump's target has a row, which is kept; any other row passes.
fn keep_target(
    instructions: &[u64],
    heads: &[u16],
    links: &[u16],
    targets: &mut [u16],
    row: usize,
) -> bool
    requires { (row < instruction_rows instructions.now) × ChainedAll instructions.now heads.now links.now × Targets instructions.now targets.old row }
    ensures value { result ≡ has_target instructions.now row }
    ensures targets { result ≡ true → Targets instructions.now targets.new (row + 1) }
{
    let x = instruction_at(instructions, row);
    if !is_jump(x) {
        return true;
    }
    let rows = instructions.len() / INSTRUCTION_WIDTH;
    let target = labelled_row(instructions, heads, links, rows, x.second_name);
    if rows <= target {
        return false;
    }
    targets[row] = target as u16;
    true
}

fn keep_targets(instructions: &[u64], heads: &[u16], links: &[u16], targets: &mut [u16]) -> bool
    requires { ChainedAll instructions.now heads.now links.now × (instruction_rows instructions.now ≤ length targets.old) }
    ensures value { result ≡ targets_present instructions.now }
    ensures targets { result ≡ true → Targets instructions.now targets.new (instruction_rows instructions.now) }
{
    let rows = instructions.len() / INSTRUCTION_WIDTH;
    for row in 0..rows {
        if !keep_target(instructions, heads, links, targets, row) {
            return false;
        }
    }
    true
}

// Whether no row is a LABEL or a jump.
fn is_unlabelled(instructions: &[u64]) -> bool
    ensures { result ≡ unlabelled instructions.now }
{
    let rows = instructions.len() / INSTRUCTION_WIDTH;
    (0..rows).all(|row| {
        let x = instruction_at(instructions, row);
        !((x.family == family::LABEL) | is_jump(x))
    })
}

// With room for the chains.
fn chains_fit(instructions: &[u64], targets: &mut [u16]) -> bool
    requires { (instruction_rows instructions.now ≤ instruction_limit) × (instruction_rows instructions.now ≤ length targets.old) }
    ensures { LabelsKnown instructions.now result targets.new }
{
    let mut heads = [NO_ROW; BUCKETS as usize];
    let mut links = [NO_ROW; INSTRUCTION_LIMIT];
    chain_labels(instructions, &mut heads, &mut links)
        && keep_targets(instructions, &heads, &links, targets)
}

// Whether every label is on one row and every target has its row; these are kept. A program that has neither takes no room for chains.
pub fn find_targets(instructions: &[u64], targets: &mut [u16]) -> bool
    requires { (instruction_rows instructions.now ≤ instruction_limit) × (instruction_rows instructions.now ≤ length targets.old) }
    ensures { LabelsKnown instructions.now result targets.new }
{
    is_unlabelled(instructions) || chains_fit(instructions, targets)
}

// The same where no step is taken.
pub fn labels_fit(instructions: &[u64]) -> bool
    requires { instruction_rows instructions.now ≤ instruction_limit }
    ensures { result ≡ labels_fit instructions.now }
{
    let mut targets = [NO_ROW; INSTRUCTION_LIMIT];
    find_targets(instructions, &mut targets)
}
