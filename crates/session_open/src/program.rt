// Open's looks at the program's rows: 9, 20, 21 and 22 of any row, then 6, 7 and 8 row by row.
ghost use Rattle.std.specs.Prelude.{◌≡◌, ◌<◌};
ghost use Rattle.tables.specs.Rows.{instruction_rows};
ghost use Rattle.session_open.specs.Open.{call_tables, CallsInside, no_other, call_look, calls_look, program_look};

use control_flow::condition::conditions_fit;
use extern_call::call::resolves;
use labels::labels::labels_fit;
use machine::outcome::is_other;
use operators::convert::conversions_fit;
use tables::family;
use tables::refusal::Refusal;
use tables::rows::{INSTRUCTION_WIDTH, instruction_at};

fn no_other(instructions: &[u64]) -> bool
    ensures { result ≡ no_other instructions.now }
{
    let rows = instructions.len() / INSTRUCTION_WIDTH;
    (0..rows).all(|row| !is_other(instruction_at(instructions, row)))
}

// One row: accepted where it is no CALL.
fn call_look(
    regions: &[u64],
    externs: &[u64],
    parameters: &[u64],
    arguments: &[u64],
    instructions: &[u64],
    row: usize,
) -> Result<(), Refusal>
    requires { (row < instruction_rows instructions.now) × CallsInside externs.now parameters.now arguments.now instructions.now }
    ensures { result ≡ call_look (call_tables regions.now externs.now parameters.now arguments.now instructions.now) row }
{
    let x = instruction_at(instructions, row);
    if x.family != family::CALL {
        return Ok(());
    }
    resolves(regions, externs, parameters, arguments, x)?;
    Ok(())
}

// Every row: the first that is refused.
fn calls_look(
    regions: &[u64],
    externs: &[u64],
    parameters: &[u64],
    arguments: &[u64],
    instructions: &[u64],
) -> Result<(), Refusal>
    requires { CallsInside externs.now parameters.now arguments.now instructions.now }
    ensures { result ≡ calls_look (call_tables regions.now externs.now parameters.now arguments.now instructions.now) }
{
    let rows = instructions.len() / INSTRUCTION_WIDTH;
    for row in 0..rows {
        call_look(regions, externs, parameters, arguments, instructions, row)?;
    }
    Ok(())
}

pub fn program_look(
    regions: &[u64],
    externs: &[u64],
    parameters: &[u64],
    arguments: &[u64],
    instructions: &[u64],
) -> Result<(), Refusal>
    requires { CallsInside externs.now parameters.now arguments.now instructions.now }
    ensures { result ≡ program_look (call_tables regions.now externs.now parameters.now arguments.now instructions.now) }
{
    if !no_other(instructions) {
        return Err(Refusal::OtherInstruction);
    }
    if !labels_fit(instructions) {
        return Err(Refusal::UnfitLabels);
    }
    if !conditions_fit(regions, instructions) {
        return Err(Refusal::ConditionNotBit);
    }
    if !conversions_fit(regions, instructions) {
        return Err(Refusal::UnfitConversion);
    }
    calls_look(regions, externs, parameters, arguments, instructions)
}
