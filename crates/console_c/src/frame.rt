ghost use Rattle.std.specs.Prelude.{◌≡◌};
ghost use Rattle.tables.specs.Tables.{tables_of};
ghost use Rattle.console_c.specs.Frame.{frame_words, console_frame};

use console::frame::{FrameError, frame};
use console_words::error::write_error;
use tables::refusal::Refusal;

pub fn console_frame(
    regions: &[u64],
    externs: &[u64],
    parameters: &[u64],
    nodes: &[u64],
    arguments: &[u64],
    instructions: &[u64],
    row: u64,
    looked: &mut [u64; 1],
    error: &mut [u64; 6],
) -> u64
    ensures { frame_words result looked.new error.new ≡ console_frame (tables_of regions.now externs.now parameters.now nodes.now arguments.now instructions.now) row looked.old error.old }
{
    let answer = frame(
        regions,
        externs,
        parameters,
        nodes,
        arguments,
        instructions,
        row as usize,
    );
    match answer {
        Ok(n) => {
            looked[0] = n;
            0
        }
        Err(turned_down) => match turned_down {
            FrameError::Refused(refusal) => refusal.number(),
            FrameError::Type(e, n) => {
                looked[0] = n;
                write_error(error, e);
                Refusal::TypeError.number()
            }
        },
    }
}
