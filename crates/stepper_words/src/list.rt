// Lists in one text: words with blanks between them, or lines.
use script::line::{line_at, part};

// What stands between words of a list.
fn is_blank(byte: &u8) -> bool {
    matches!(*byte, b' ' | b'\t' | b'\r')
}

// The word at a place; an empty one past the end.
pub fn item(list: &[u8], place: u64) -> &[u8] {
    let mut words = list.split(is_blank).filter(|word| !word.is_empty());
    words.nth(place as usize).unwrap_or(&[])
}

// The line at a place, from 0; an empty one past the end.
pub fn line_of(list: &[u8], place: u64) -> &[u8] {
    let mut line = line_at(list, 0);
    for _ in 0..place {
        if line.start >= list.len() {
            break;
        }
        line = line_at(list, line.next);
    }
    part(list, line.start, line.end)
}

// Where a word stands in a list, from 0, in the list's letters or in small and capital ones alike.
pub fn find(list: &[u8], word: &[u8], any_case: bool) -> Option<usize> {
    let mut words = list.split(is_blank).filter(|word| !word.is_empty());
    words.position(|item| item == word || any_case && item.eq_ignore_ascii_case(word))
}

pub fn index_of(list: &[u8], word: &[u8]) -> Option<usize> {
    find(list, word, false)
}
