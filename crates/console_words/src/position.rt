// A position's three words.
ghost use Rattle.std.specs.Prelude.{◌≡◌, ℕ, List, [], ◌∷◌};
ghost use Rattle.std.proofs.lemmas.List.Edits.{sets};
ghost use Rattle.console_words.specs.Position.{position_in, position_words};

use journal::position::Position;

pub fn position_in(position: &[u64; 3]) -> Position
    ensures { result ≡ position_in position.now }
{
    Position {
        row: position[0] as usize,
        done: position[1] as usize,
        used: position[2] as usize,
    }
}

pub fn write_position(position: &mut [u64; 3], p: Position)
    ensures { position.new ≡ sets position.old 0 (position_words p) }
{
    position[0] = p.row as u64;
    position[1] = p.done as u64;
    position[2] = p.used as u64;
}
