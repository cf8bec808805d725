// A text by lines, and a line by words. Every place is taken: past the end there is nothing.
ghost use Rattle.std.specs.Prelude.{◌≤◌};

// From `start` up to `end`; `next` is where the next line begins.
#[derive(Clone, Copy)]
pub struct Line {
    pub start: usize,
    pub end: usize,
    pub next: usize,
}

#[derive(Clone, Copy)]
pub struct Word {
    pub start: usize,
    pub end: usize,
}

pub fn least(a: usize, b: usize) -> usize
    ensures { (result ≤ a) × (result ≤ b) }
{
    a.min(b)
}

// What the text has from `start` up to `end`.
pub fn part(text: &[u8], start: usize, end: usize) -> &[u8] {
    let last = end.min(text.len());
    let first = start.min(last);
    &text[first..last]
}

pub fn byte_at(text: &[u8], i: usize) -> u8 {
    text.get(i).copied().unwrap_or(0)
}

fn is_blank(byte: u8) -> bool {
    matches!(byte, b' ' | b'\t' | b'\r')
}

// The first place from `at` on, before `end`, that holds the byte; or `end`.
fn find(text: &[u8], at: usize, end: usize, byte: u8) -> usize {
    (at..end).find(|i| byte_at(text, *i) == byte).unwrap_or(end)
}

// The first place from `at` on, before `end`, whose byte is blank or not, as asked; or `end`.
fn pass(text: &[u8], at: usize, end: usize, blank: bool) -> usize {
    (at..end)
        .find(|i| is_blank(byte_at(text, *i)) != blank)
        .unwrap_or(end)
}

// The line that begins at `at`, without the comment from `#` on.
pub fn line_at(text: &[u8], at: usize) -> Line {
    let feed = find(text, at, text.len(), b'\n');
    Line {
        start: at,
        end: find(text, at, feed, b'#'),
        next: feed.wrapping_add(1),
    }
}

// The first word from `at` on, before `end`; an empty one where there is none.
pub fn word_at(text: &[u8], at: usize, end: usize) -> Word {
    let start = pass(text, at, end, true);
    Word {
        start,
        end: pass(text, start, end, false),
    }
}

// Whether two texts have the same bytes.
pub fn same(a: &[u8], b: &[u8]) -> bool {
    a == b
}
