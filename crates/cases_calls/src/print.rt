// Parts of a line: the call and its number, the words of its answer, and the words that changed, with bars between.
use script::descriptor::STDOUT_FILENO;

// What an out-array holds before a call; no answer of the cases has this word.
pub const UNWRITTEN: u64 = 0x5555555555555555;

pub fn text(bytes: &[u8]) {
    io::write_all(STDOUT_FILENO, bytes);
}

fn number(n: u64) {
    text(b" ");
    io::print_decimal(STDOUT_FILENO, n);
}

// The call and its number, after which stands what it answers.
pub fn answered(name: &[u8], refusal: u64) {
    text(name);
    number(refusal);
    text(b" |");
}

// The words of an out-array that the call wrote.
pub fn written(out: &[u64]) {
    for &word in out {
        if word != UNWRITTEN {
            number(word);
        }
    }
}

// The words that a call changed, each as its index and what it holds then.
pub fn changes(before: &[u64], after: &[u64]) {
    text(b" |");
    for (i, (&old, &new)) in before.iter().zip(after).enumerate() {
        if old != new {
            number(i as u64);
            text(b":");
            io::print_decimal(STDOUT_FILENO, new);
        }
    }
}
