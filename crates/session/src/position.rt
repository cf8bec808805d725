// The looks at a position: it lies in its tables, and the journal has room behind it.
ghost use Rattle.std.specs.Prelude.{◌≡◌, ◌+◌, ◌-◌, ◌^◌, ◌≤◌, ◌<◌, leb};
ghost use Rattle.session.specs.Position.{position_fits};

use journal::position::Position;
use tables::rows::INSTRUCTION_WIDTH;

pub fn position_fits(instructions: &[u64], entries: usize, p: Position) -> bool
    ensures { result ≡ position_fits instructions.now entries p }
{
    let rows = instructions.len() / INSTRUCTION_WIDTH;
    (p.row <= rows) & ((p.done <= p.used) & (p.used <= entries))
}

// Whether so many changes and the closing entry fit into the entries left.
pub fn has_room(entries: usize, p: Position, changes: usize) -> bool
    requires { (p.used ≤ entries) × (changes + 1 < 2 ^ 64) }
    ensures { result ≡ leb (changes + 1) (entries - p.used) }
{
    changes + 1 <= entries - p.used
}
