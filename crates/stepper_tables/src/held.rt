// The six tables as the terminal holds them: one array, a room for each.
use crate::file::{ROOM, TABLES};
use stepper_words::heading::Table;

// The words of one of the six tables.
pub fn table(tables: &[u64], which: Table, lengths: [usize; TABLES]) -> &[u64] {
    let number = which.number();
    let rooms = &tables[(number * ROOM).min(tables.len())..];
    &rooms[..lengths[number].min(ROOM).min(rooms.len())]
}
