// Numbers in a row.
use crate::token::{Found, token_at};

// A word at a place that the slice has.
pub fn put(out: &mut [u64], i: usize, word: u64) {
    if i < out.len() {
        out[i] = word;
    }
}

// Reads `count` numbers from `at` on, keeps those that `out` has room for, from its front, and answers the place after them.
// It ends early before a token that is no number.
pub fn fill(text: &[u8], at: usize, out: &mut [u64], count: usize) -> usize {
    let mut place = at;
    for i in 0..count {
        let token = token_at(text, place);
        let Found::Number(n) = token.found else {
            break;
        };
        put(out, i, n);
        place = token.next;
    }
    place
}
