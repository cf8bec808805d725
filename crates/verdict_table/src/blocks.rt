// The chart's blocks, one a family: where its forms start, and how many codes each operand may have.
ghost use Rattle.std.specs.Prelude.{◌≡◌, ◌<◌};
ghost use Rattle.verdict_table.specs.Place.{block_of};
ghost use Rattle.tables.specs.Family.{frame};

use tables::family::FRAME;

// Families 0 to 7 have a block.
pub const FAMILIES: usize = FRAME as usize;

// An operand that is a name: undeclared, or of one of the four kinds. The first operand always is.
pub const NAMES: usize = 5;

// By family. Of an operand that it has not there is one; of operators too, but for NEG and NOT.
const STARTS: [usize; FAMILIES] = [0, 35, 210, 240, 250, 285, 310, 435];

const SECONDS: [usize; FAMILIES] = [1, 5, 1, 1, 1, 5, 5, 5];

const SOURCES: [usize; FAMILIES] = [7, 7, 6, 1, 7, 1, 5, 7];

const OPERATORS: [usize; FAMILIES] = [1, 1, 1, 2, 1, 1, 1, 1];

#[derive(Clone, Copy)]
pub struct Block {
    pub start: usize,
    pub seconds: usize,
    pub sources: usize,
    pub operators: usize,
}

pub fn block_of(family: usize) -> Block
    requires { family < frame }
    ensures { result ≡ block_of family }
{
    Block {
        start: STARTS[family],
        seconds: SECONDS[family],
        sources: SOURCES[family],
        operators: OPERATORS[family],
    }
}
