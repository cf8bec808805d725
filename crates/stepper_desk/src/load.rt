// A file read into the tables.
ghost use Rattle.std.specs.Prelude.{◌≤◌};

use crate::state::{Desk, JOURNAL_WORDS, State, TEXT_BYTES};
use crate::trouble::turned_down;
use journal::cells::CELL_WIDTH;
use journal::entries::ENTRY_WIDTH;
use script::line::part;
use std::fs::File;
use std::io::Read;
use std::rt::Files;
use std::str::from_utf8;
use stepper_lines::print::text;
use stepper_tables::file::{Reader, TABLE_WORDS, read_file};
use stepper_tables::held::table;
use stepper_words::heading::Table;
use stepper_words::names::NAME_WORDS;
use tables::cells::{CELL_LIMIT, cell_count};

// The cells that the regions ask for, at most the limit.
fn cells_of(regions: &[u64]) -> usize
    ensures { result ≤ 4096 }
{
    cell_count(regions).unwrap_or(CELL_LIMIT)
}

// Memory and journal as asked for; the memory exactly enough for the cells where nothing is asked.
fn lent(desk: Desk, reader: Reader, cells: usize) -> Desk
    requires { cells ≤ 4096 }
{
    let lengths = reader.lengths;
    Desk {
        lengths,
        memory: reader.memory.unwrap_or(cells * CELL_WIDTH),
        journal: reader.entries.min(JOURNAL_WORDS / ENTRY_WIDTH) * ENTRY_WIDTH,
        view: desk.view.with_names(reader.names),
        state: State::Opened,
        ..desk
    }
}

fn read_tables(
    source: &[u8],
    names: &mut [u64; NAME_WORDS],
    tables: &mut [u64; TABLE_WORDS],
    desk: Desk,
) -> Desk {
    let reader = read_file(source, names, tables);
    match reader.outcome {
        Ok(()) => lent(
            desk,
            reader,
            cells_of(table(tables, Table::Regions, reader.lengths)),
        ),
        Err(trouble) => turned_down(desk, source, reader, trouble),
    }
}

// Reads until the buffer is full, the file ends or a read fails; how many bytes.
fn read_full(file: &mut impl Read, buffer: &mut [u8; TEXT_BYTES]) -> usize {
    let mut count = 0;
    // A while: a read gives as many bytes as it likes.
    while count < TEXT_BYTES {
        let more = file.read(&mut buffer[count..]).unwrap_or(0);
        if more == 0 {
            break;
        }
        count += more;
    }
    count
}

// Reads the file's bytes; how many: none where it cannot be read, the buffer's length where there are more than it holds.
pub fn read_bytes(rt: &impl Files, path: &[u8], buffer: &mut [u8; TEXT_BYTES]) -> usize {
    let Ok(name) = from_utf8(path) else {
        return 0;
    };
    let Ok(mut file) = File::open(rt, name) else {
        return 0;
    };
    read_full(&mut file, buffer)
}

// A file that is not there: the desk stays as it is.
pub fn absent(path: &[u8]) {
    text(path);
    text(b": there is no such file, or it cannot be read or is empty\n");
}

// A file that is cut off: the desk has none.
fn too_long(path: &[u8], desk: Desk) -> Desk {
    text(path);
    text(b": longer than 65,535 bytes\n");
    desk.stated(State::NoFile)
}

// So many bytes of a file into text and tables.
pub fn load(
    path: &[u8],
    buffer: &[u8; TEXT_BYTES],
    count: usize,
    names: &mut [u64; NAME_WORDS],
    tables: &mut [u64; TABLE_WORDS],
    desk: Desk,
) -> Desk {
    if count >= TEXT_BYTES {
        return too_long(path, desk);
    }
    let read = Desk {
        text: count,
        ..desk
    };
    read_tables(part(buffer, 0, count), names, tables, read)
}
