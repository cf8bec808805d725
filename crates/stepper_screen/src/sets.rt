// Lines of names: a CALL's access sets, a frame's references.
use memory::Stepped;
use stepper_lines::line::Line;
use stepper_lines::refusal::refused;
use stepper_lines::view::View;
use stepper_words::names::{NAME_WORDS, word_of};
use tables::refusal::Refusal;

pub const SET_WORDS: usize = 1024;

fn set(line: Line, source: &[u8], names: &[u64; NAME_WORDS], list: &[u64], count: usize) -> Line {
    let mut made = line;
    for i in 0..count {
        if !made.fits() {
            break;
        }
        made = made
            .with(b' ')
            .name(source, names, word_of(list, i))
            .whole();
    }
    made
}

fn set_line(
    line: Line,
    source: &[u8],
    names: &[u64; NAME_WORDS],
    list: &[u64; SET_WORDS],
    count: usize,
) {
    set(line, source, names, list, count).end();
}

// What access answered, with its read and write sets.
pub fn show_sets(
    source: &[u8],
    names: &[u64; NAME_WORDS],
    view: View,
    reads: &[u64; SET_WORDS],
    writes: &[u64; SET_WORDS],
    answer: Result<(usize, usize), Refusal>,
) {
    match answer {
        Ok((read, written)) => {
            let line = Line::new(view);
            set_line(line.text(b"  reads"), source, names, reads, read);
            set_line(line.text(b"  writes"), source, names, writes, written)
        }
        Err(refusal) => refused(refusal, view),
    }
}

// A line of references, and the place to go on from; the node table's length at the end.
#[derive(Drop)]
pub struct Walk {
    pub line: Line,
    pub place: usize,
}

// The line with a reference that the walk handed out.
pub fn walked(
    walk: Walk,
    source: &[u8],
    names: &[u64; NAME_WORDS],
    stepped: Stepped,
    end: usize,
) -> Walk {
    let line = walk.line;
    match stepped.found {
        Some(found) => {
            let told = line
                .with(b' ')
                .reference(source, names, found.name, found.index);
            Walk {
                line: told.whole(),
                place: stepped.place,
            }
        }
        None => Walk { line, place: end },
    }
}
