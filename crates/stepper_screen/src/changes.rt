// What the last step changed in memory.
use crate::cells::held;
use stepper_desk::state::Desk;
use stepper_lines::print::text;
use tables::cells::CELL_LIMIT;

// Whether any of `count` cells from `first` on changed.
pub fn changed(before: &[u64], after: &[u64], first: usize, count: u64) -> bool {
    (0..count).any(|i| {
        let cell = first.wrapping_add(i as usize);
        held(before, cell) != held(after, cell)
    })
}

// A step that left the cells as they were, or a run of several, whose steps may have changed a cell and changed it back.
pub fn tell_unchanged(before: &[u64], memory: &[u64], old: Desk, new: Desk) {
    let first = old.position.done;
    let last = new.position.done;
    if first == last || changed(before, memory, 0, CELL_LIMIT as u64) {
        return;
    }
    if last > first.wrapping_add(1) {
        text(b"every cell is as before the run\n");
    } else {
        text(b"no cell changed\n");
    }
}
