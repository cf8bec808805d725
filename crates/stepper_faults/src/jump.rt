// Refusal 20: a label that an earlier row has, or a jump to a label that is on none. Refusal 21: a condition that is not declared, or not BIT.
use crate::declared::kind_of;
use crate::fault::{Jump, Row, Where};
use labels::labels::{is_jump, label_row};
use stepper_words::heading::Table;
use tables::family;
use tables::rows::{INSTRUCTION_WIDTH, Instruction};
use words::kind::BIT;

// A LABEL row with one before it of its label.
pub fn label_twice(instructions: &[u64], row: Row, x: Instruction) -> Option<Where> {
    let label = x.second_name;
    let earlier = label_row(instructions, label);
    if x.family == family::LABEL && earlier < row.number {
        return Some(Where::SameName(Table::Instructions, label, earlier, row.number));
    }
    None
}

pub fn target(instructions: &[u64], row: Row, x: Instruction) -> Option<Where> {
    let rows = instructions.len() / INSTRUCTION_WIDTH;
    let label = x.second_name;
    if is_jump(x) && label_row(instructions, label) == rows {
        return Some(Where::Jump(row, Jump::NoTarget(label)));
    }
    None
}

pub fn condition(regions: &[u64], row: Row, x: Instruction) -> Option<Where> {
    if x.family != family::JUMP_WHEN && x.family != family::JUMP_UNLESS {
        return None;
    }
    let name = x.first_name;
    match kind_of(regions, name) {
        None => Some(Where::Jump(row, Jump::Undeclared(name))),
        Some(BIT) => None,
        Some(kind) => Some(Where::Jump(row, Jump::NotBit(name, kind))),
    }
}
