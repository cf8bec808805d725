// Where a refusal lies, in the library's order of looks: of 1, 2 and 3 through all tables.
use crate::fault::Where;
use crate::look::{find_condition, find_conversion, find_label};
use crate::name::find_name;
use crate::program::Program;
use crate::shape::find_shape;
use crate::word::find_word;
use tables::refusal::Refusal;

pub fn find(
    refusal: Refusal,
    regions: &[u64],
    externs: &[u64],
    parameters: &[u64],
    nodes: &[u64],
    arguments: &[u64],
    instructions: &[u64],
) -> Option<Where> {
    let program = Program {
        regions,
        externs,
        parameters,
        nodes,
        arguments,
        instructions,
    };
    match refusal {
        Refusal::TableShape => find_shape(program),
        Refusal::WordNotAllowed => find_word(program),
        Refusal::NameTwice => find_name(program),
        Refusal::UnfitLabels => find_label(instructions),
        Refusal::ConditionNotBit => find_condition(regions, instructions),
        Refusal::UnfitConversion => find_conversion(regions, instructions),
        _ => None,
    }
}
