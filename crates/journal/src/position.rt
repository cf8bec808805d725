// A place in a session.
ghost use Rattle.std.specs.Prelude.{◌≡◌, ◌+◌, ◌^◌, ◌<◌};
ghost use Rattle.journal.specs.Position.{first_position, advanced, retreated};

// The current row, the steps not taken back, and the journal entries used.
#[derive(Clone, Copy)]
pub struct Position {
    pub row: usize,
    pub done: usize,
    pub used: usize,
}

impl Position {
    // Where open begins.
    pub fn first() -> Position
        ensures { result ≡ first_position }
    {
        Position {
            row: 0,
            done: 0,
            used: 0,
        }
    }

    // The position after a step with so many changes that leads to row `next`.
    pub fn advance(self, next: usize, changes: usize) -> Position
        requires { (self.done + 1 < 2 ^ 64) × (self.used + (changes + 1) < 2 ^ 64) }
        ensures { result ≡ advanced self next changes }
    {
        Position {
            row: next,
            done: self.done + 1,
            used: self.used + (changes + 1),
        }
    }

    // The position before the last step, whose closing entry has the row left and the count of changes.
    pub fn retreat(self, row: usize, changes: usize) -> Position
        requires { (0 < self.done) × (changes < self.used) }
        ensures { result ≡ retreated self row changes }
    {
        Position {
            row,
            done: self.done - 1,
            used: self.used - (changes + 1),
        }
    }
}
