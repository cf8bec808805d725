// Names: numbered from 0 by first use, kept as their places in the text.
ghost use Rattle.std.specs.Prelude.{◌<◌};

use script::line::{Word, part, same};

pub const MOST_NAMES: usize = 1024;

// Where a name begins, and where it ends.
const NAME_WIDTH: usize = 2;

pub const NAME_WORDS: usize = NAME_WIDTH * MOST_NAMES;

// The word at a place, 0 past the end.
pub fn word_of(words: &[u64], i: usize) -> u64 {
    words.get(i).copied().unwrap_or(0)
}

// Where name n stands in the text; nowhere, where it is none of the names that are kept.
pub fn place_of(names: &[u64; NAME_WORDS], n: usize) -> Word {
    if n >= MOST_NAMES {
        return Word { start: 0, end: 0 };
    }
    let at = n * NAME_WIDTH;
    Word {
        start: names[at] as usize,
        end: names[at + 1] as usize,
    }
}

fn is_name(text: &[u8], names: &[u64; NAME_WORDS], n: usize, word: &[u8]) -> bool {
    let place = place_of(names, n);
    same(part(text, place.start, place.end), word)
}

// The number of a name among the first `count`; `count` where it is new.
pub fn known(text: &[u8], names: &[u64; NAME_WORDS], count: usize, word: &[u8]) -> usize {
    (0..count)
        .find(|n| is_name(text, names, *n, word))
        .unwrap_or(count)
}

pub fn keep(names: &mut [u64; NAME_WORDS], n: usize, word: Word)
    requires { n < 1024 }
{
    let at = n * NAME_WIDTH;
    names[at] = word.start as u64;
    names[at + 1] = word.end as u64;
}
