// What a foreign writer leaves in memory, journal and position: the lines `cell`, `entry` and `position`, after open.
ghost use Rattle.std.specs.Prelude.{◌<◌};

use crate::state::Desk;
use journal::cells::CELL_WIDTH;
use journal::entries::ENTRY_WIDTH;
use journal::position::Position;
use script::line::{line_at, part, word_at};
use stepper_tables::row::read_row;
use stepper_words::heading::{Heading, heading_of};
use stepper_words::names::NAME_WORDS;
use stepper_words::place::ROW_WORDS;

// A cell or an entry that there is gets the words after its number.
fn put(rows: &mut [u64], width: usize, words: [u64; ROW_WORDS])
    requires { (0 < width) × (width < 16) }
{
    if let Some(row) = rows.chunks_exact_mut(width).nth(words[0] as usize) {
        row.copy_from_slice(&words[1..=width]);
    }
}

// The position after a line, none of whose words is a name.
fn plant_line(
    line: &[u8],
    names: &mut [u64; NAME_WORDS],
    known_names: usize,
    memory: &mut [u64],
    journal: &mut [u64],
    position: Position,
) -> Position {
    let end = line_at(line, 0).end;
    let word = word_at(line, 0, end);
    let heading = heading_of(part(line, word.start, word.end));
    if !matches!(heading, Heading::Cell | Heading::Entry | Heading::Position) {
        return position;
    }
    let words = read_row(line, names, heading, word.end, end, known_names, false).words;
    match heading {
        Heading::Cell => put(memory, CELL_WIDTH, words),
        Heading::Entry => put(journal, ENTRY_WIDTH, words),
        _ => {
            return Position {
                row: words[0] as usize,
                done: words[1] as usize,
                used: words[2] as usize,
            };
        }
    }
    position
}

// The position after all lines of a text that `read_file` took.
fn plant(
    text: &[u8],
    names: &mut [u64; NAME_WORDS],
    known_names: usize,
    memory: &mut [u64],
    journal: &mut [u64],
    position: Position,
) -> Position {
    let mut placed = position;
    for line in text.split(|byte| *byte == b'\n') {
        placed = plant_line(line, names, known_names, memory, journal, placed);
    }
    placed
}

// What the file has of a foreign writer.
pub fn plant_lent(
    source: &[u8],
    names: &mut [u64; NAME_WORDS],
    desk: Desk,
    memory: &mut [u64],
    journal: &mut [u64],
) -> Desk {
    let words = desk.memory.min(memory.len());
    let entries = desk.journal.min(journal.len());
    let position = plant(
        source,
        names,
        desk.view.names,
        &mut memory[..words],
        &mut journal[..entries],
        desk.position,
    );
    desk.placed(position)
}
