// Run on the cells: before each step come allowance, end, CALL, refusal.
ghost use Rattle.std.specs.Prelude.{◌≡◌, List, ℕ, length};
ghost use Rattle.tables.specs.Tables.{tables_of};
ghost use Rattle.labels.specs.Targets.{LabelsKnown};
ghost use Rattle.session_forward.specs.Step.{Steppable};
ghost use Rattle.session_run.specs.Run.{Rest, running, onward, turn, run_by};
ghost use Rattle.session_run.specs.Turn.{cell_step, after_turn, run_cells};

use journal::entries::ENTRY_WIDTH;
use journal::position::Position;
use labels::labels::{NO_ROW, find_targets};
use session::answer::{RunAnswer, StepAnswer, Stop};
use session::position::position_fits;
use session_forward::step::step_row;
use std::ops::ControlFlow;
use tables::family::CALL;
use tables::refusal::Refusal;
use tables::rows::{INSTRUCTION_LIMIT, INSTRUCTION_WIDTH, instruction_at};

// What a forward comes to.
fn turn_of(answer: StepAnswer) -> ControlFlow<(Stop, Position), Position>
    ensures { (rest : Rest) (taken : ℕ) (cells journal : List ℕ) → after_turn rest taken cells journal result ≡ onward rest taken cells journal answer }
{
    match answer {
        Ok(p) => ControlFlow::Continue(p),
        Err((refusal, p)) => ControlFlow::Break((Stop::Refusal(refusal), p)),
    }
}

// End, CALL, refusal, or a step: a forward with no reply.
fn take_turn(
    regions: &[u64],
    externs: &[u64],
    parameters: &[u64],
    arguments: &[u64],
    instructions: &[u64],
    fit: bool,
    targets: &[u16],
    cells: &mut [u64],
    journal: &mut [u64],
    p: Position,
) -> ControlFlow<(Stop, Position), Position>
    requires { Steppable regions.now externs.now parameters.now arguments.now instructions.now cells.old (length journal.old) × LabelsKnown instructions.now fit targets.now }
    ensures { (nodes : List ℕ) (rest : Rest) (taken : ℕ) → after_turn rest taken cells.new journal.new result ≡ turn (cell_step (tables_of regions.now externs.now parameters.now nodes arguments.now instructions.now)) instructions.now rest taken cells.old journal.old p }
{
    let row = p.row;
    if instructions.len() / INSTRUCTION_WIDTH <= row {
        return ControlFlow::Break((Stop::End, p));
    }
    let x = instruction_at(instructions, row);
    if x.family == CALL {
        return ControlFlow::Break((Stop::Call, p));
    }
    let answer = step_row(
        regions,
        externs,
        parameters,
        arguments,
        instructions,
        fit,
        targets,
        cells,
        journal,
        p,
        &[],
    );
    turn_of(answer)
}

// The steps are counted as they are taken.
pub fn run_rows(
    regions: &[u64],
    externs: &[u64],
    parameters: &[u64],
    arguments: &[u64],
    instructions: &[u64],
    fit: bool,
    targets: &[u16],
    cells: &mut [u64],
    journal: &mut [u64],
    p: Position,
    allowance: u64,
) -> RunAnswer
    requires { Steppable regions.now externs.now parameters.now arguments.now instructions.now cells.old (length journal.old) × LabelsKnown instructions.now fit targets.now }
    ensures { (nodes : List ℕ) → running result cells.new journal.new ≡ run_by (cell_step (tables_of regions.now externs.now parameters.now nodes arguments.now instructions.now)) instructions.now allowance 0 cells.old journal.old p }
{
    let mut position = p;
    for taken in 0..allowance {
        let turn = take_turn(
            regions,
            externs,
            parameters,
            arguments,
            instructions,
            fit,
            targets,
            cells,
            journal,
            position,
        );
        match turn {
            ControlFlow::Break((stop, at)) => return Ok((taken, stop, at)),
            ControlFlow::Continue(next) => position = next,
        }
    }
    Ok((allowance, Stop::Allowance, position))
}

// Run behind 1, 2, 3, 10 and 4: the position and the labels of the program are looked at once, and each jump's target is found.
pub fn run_cells(
    regions: &[u64],
    externs: &[u64],
    parameters: &[u64],
    arguments: &[u64],
    instructions: &[u64],
    cells: &mut [u64],
    journal: &mut [u64],
    p: Position,
    allowance: u64,
) -> RunAnswer
    requires { Steppable regions.now externs.now parameters.now arguments.now instructions.now cells.old (length journal.old) }
    ensures { (nodes : List ℕ) → running result cells.new journal.new ≡ run_cells (tables_of regions.now externs.now parameters.now nodes arguments.now instructions.now) cells.old journal.old p allowance }
{
    if !position_fits(instructions, journal.len() / ENTRY_WIDTH, p) {
        return Err((Refusal::ForeignPosition, p));
    }
    let mut targets = [NO_ROW; INSTRUCTION_LIMIT];
    let fit = find_targets(instructions, &mut targets);
    run_rows(
        regions,
        externs,
        parameters,
        arguments,
        instructions,
        fit,
        &targets,
        cells,
        journal,
        p,
        allowance,
    )
}
