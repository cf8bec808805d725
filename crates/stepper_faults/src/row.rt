// A row's words.
use std::array;
use stepper_words::names::word_of;
use stepper_words::place::ROW_WORDS;

// A row's words; 0 past its end.
pub fn whole_row(row: &[u64]) -> [u64; ROW_WORDS] {
    array::from_fn(|column| word_of(row, column))
}
