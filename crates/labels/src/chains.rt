// LABEL rows by their labels, in chains: one for each bucket, from its last row to its first.
#![tactic(auto, unfolding(crate::specs::Chains::bucket_of, crate::specs::Chains::chained))]

ghost use Rattle.std.specs.Prelude.{◌≡◌, true, ◌≤◌, ◌<◌, ltb, get_or, length, set};
ghost use Rattle.tables.specs.Rows.{instruction_rows, instruction_limit};
ghost use Rattle.labels.specs.Labels.{has_label, labelled};
ghost use Rattle.labels.specs.Chains.{bucket_count, bucket_of, chained, Chains};

use tables::family::LABEL;
use tables::rows::instruction_at;

// How many buckets there are: a prime, so that labels at equal steps have different ones.
pub const BUCKETS: u64 = 1021;

pub fn bucket(label: u64) -> usize
    ensures { result ≡ bucket_of label }
{
    (label % BUCKETS) as usize
}

// Whether a row is the LABEL of that label. Its label is looked at first, which few rows have.
pub fn has_label(instructions: &[u64], row: usize, label: u64) -> bool
    requires { row < instruction_rows instructions.now }
    ensures { result ≡ has_label instructions.now label row }
{
    let x = instruction_at(instructions, row);
    x.second_name == label && x.family == LABEL
}

// Whether a word that was read for a row is one of the first n rows and in that bucket's chain.
fn is_chained(instructions: &[u64], n: usize, b: usize, row: usize) -> bool
    requires { n ≤ instruction_rows instructions.now }
    ensures { result ≡ chained instructions.now n b row }
{
    if n <= row {
        return false;
    }
    let x = instruction_at(instructions, row);
    (x.family == LABEL) & (bucket(x.second_name) == b)
}

// The label's row among the first n, or n where none of these is: along its bucket's chain.
pub fn labelled_row(
    instructions: &[u64],
    heads: &[u16],
    links: &[u16],
    n: usize,
    label: u64,
) -> usize
    requires { (n ≤ instruction_rows instructions.now) × (instruction_rows instructions.now ≤ instruction_limit) × Chains instructions.now heads.now links.now n }
    ensures n_value { ltb result n ≡ labelled instructions.now label n }
    ensures result_value { result < n → has_label instructions.now label result ≡ true }
{
    let b = bucket(label);
    let mut before = n;
    let mut row = usize::from(heads[b]);
    // A while: no count is known, since the chain ends where the words say so.
    while is_chained(instructions, before, b, row) {
        if has_label(instructions, row, label) {
            return row;
        }
        before = row;
        row = usize::from(links[row]);
    }
    n
}

// A LABEL row put in front of its bucket's chain.
pub fn chain(heads: &mut [u16], links: &mut [u16], row: usize, label: u64)
    requires { (row < instruction_limit) × (length heads.old ≡ bucket_count) × (length links.old ≡ instruction_limit) }
    ensures links_after { links.new ≡ set links.old row (get_or heads.old (bucket_of label) 0) }
    ensures heads_after { heads.new ≡ set heads.old (bucket_of label) row }
{
    let b = bucket(label);
    links[row] = heads[b];
    heads[b] = row as u16;
}
