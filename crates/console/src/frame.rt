// The type check of one frame, and how many nodes of its expression it looked at.
ghost use Rattle.std.specs.Prelude.{◌≡◌};
ghost use Rattle.tables.specs.Tables.{tables_of};
ghost use Rattle.console.specs.Frame.{frame_answer, frame_tables};

use loader::load::load_row;
use tables::family::FRAME;
use tables::refusal::Refusal;
use tables::rows::instruction_at;
use type_check::frame::{FrameCheck, check_frame};
use type_rules::error::TypeError;

// Why a frame is turned down: a refusal; or 5, with the type error and how many nodes were looked at.
#[derive(Clone, Copy, PartialEq, Eq, Debug)]
pub enum FrameError {
    Refused(Refusal),
    Type(TypeError, u64),
}

impl From<Refusal> for FrameError {
    ghost use Rattle.console.specs.declared.frame.FrameError.{FrameError};

    ghost from_gives = { λ r e. e ≡ FrameError.Refused r };

    fn from(refusal: Refusal) -> Self {
        FrameError::Refused(refusal)
    }
}

fn frame_answer(checked: FrameCheck) -> Result<u64, FrameError>
    ensures { result ≡ frame_answer checked }
{
    let verdict = checked.verdict;
    match verdict {
        Ok(()) => Ok(checked.looked),
        Err(error) => Err(FrameError::Type(error, checked.looked)),
    }
}

pub fn frame(
    regions: &[u64],
    externs: &[u64],
    parameters: &[u64],
    nodes: &[u64],
    arguments: &[u64],
    instructions: &[u64],
    row: usize,
) -> Result<u64, FrameError>
    ensures { result ≡ frame_tables (tables_of regions.now externs.now parameters.now nodes.now arguments.now instructions.now) row }
{
    load_row(
        regions,
        externs,
        parameters,
        nodes,
        arguments,
        instructions,
        row,
        FRAME,
    )?;
    let x = instruction_at(instructions, row);
    frame_answer(check_frame(regions, nodes, row as u64, x))
}
