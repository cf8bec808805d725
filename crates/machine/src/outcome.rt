// A row that is no CALL: a refusal, or its writes.
ghost use Rattle.std.specs.Prelude.{◌≡◌};
ghost use Rattle.machine.specs.Outcome.{is_other, plain_outcome, row_outcome};
ghost use Rattle.machine.specs.Reach.{Opened};

use crate::family::family_outcome;
use journal::cells::Write;
use operands::address::{named_regions, written_addresses};
use tables::refusal::Refusal;
use tables::rows::Instruction;
use tables::{family, operator};

// What a row writes, in order.
#[derive(Drop)]
pub enum Writes {
    Nothing,
    One(Write),
    Two(Write, Write),
}

// 9: in forward of the row to be done, in open of any row.
pub fn is_other(x: Instruction) -> bool
    ensures { result ≡ is_other x }
{
    (x.family == family::OTHER) & (x.operator == operator::ANY_OTHER)
}

pub fn plain_outcome(
    regions: &[u64],
    cells: &[u64],
    x: Instruction,
    reply: &[u64],
) -> Result<Writes, Refusal>
    requires { Opened regions.now cells.now x }
    ensures { row_outcome result ≡ plain_outcome regions.now cells.now x reply.now }
{
    if reply.len() != 0 {
        return Err(Refusal::UnfitReply);
    }
    let n = named_regions(regions, x)?;
    let a = written_addresses(regions, x, n)?;
    family_outcome(regions, cells, x, n, a)
}
