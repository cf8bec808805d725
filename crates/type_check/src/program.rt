// The type check of a row, by its family, and of a program: its first bad row.
// Translated from quil-rs, program/type_check.rs (Apache-2.0), and changed: see NOTICE.
ghost use Rattle.std.specs.Prelude.{◌≡◌};
ghost use Rattle.type_check.specs.Check.{FrameInside, FramesInside, verdict_of, check_of};

use crate::frame::check_frame;
use tables::family;
use tables::rows::{INSTRUCTION_WIDTH, Instruction, instruction_at};
use type_rules::error::TypeError;
use type_rules::rules::{
    type_check_arithmetic, type_check_binary_logic, type_check_comparison, type_check_exchange,
    type_check_load, type_check_move, type_check_store, type_check_unary_logic,
};

#[tactic(auto, unfolding(crate::specs::Check::verdict_of, crate::specs::Check::judgement_of, crate::specs::Looked::frame_check, type_rules::specs::Codes::row_rule, type_rules::specs::Codes::source_code, type_rules::specs::Rule::rule_of, tables::specs::Cases::case_of))]
pub fn check_row(regions: &[u64], nodes: &[u64], row: u64, x: Instruction) -> Result<(), TypeError>
    requires { FrameInside nodes.now x }
    ensures { result ≡ verdict_of regions.now nodes.now row x }
{
    let family = x.family;
    match family {
        family::ARITHMETIC => type_check_arithmetic(regions, row, x),
        family::COMPARISON => type_check_comparison(regions, row, x),
        family::BINARY_LOGIC => type_check_binary_logic(regions, row, x),
        family::UNARY => type_check_unary_logic(regions, row, x),
        family::MOVE => type_check_move(regions, row, x),
        family::EXCHANGE => type_check_exchange(regions, row, x),
        family::LOAD => type_check_load(regions, row, x),
        family::STORE => type_check_store(regions, row, x),
        family::FRAME => check_frame(regions, nodes, row, x).verdict,
        _ => Ok(()),
    }
}

pub fn check_program(regions: &[u64], nodes: &[u64], instructions: &[u64]) -> Result<(), TypeError>
    requires { FramesInside nodes.now instructions.now }
    ensures { result ≡ check_of regions.now nodes.now instructions.now }
{
    let rows = instructions.len() / INSTRUCTION_WIDTH;
    for row in 0..rows {
        let verdict = check_row(
            regions,
            nodes,
            row as u64,
            instruction_at(instructions, row),
        );
        if let Err(error) = verdict {
            return Err(error);
        }
    }
    Ok(())
}
