// The words that stand for numbers, by place, and the words that are no names. A word's number is its place in its list.
use crate::heading::HEADINGS;
use crate::list::{find, index_of};
use crate::place::Place;
use tables::parameter_shape;

pub const KINDS: [u8; 22] = *b"BIT INTEGER OCTET REAL";

const NO_RETURN: &[u8] = b"none";

const SHAPES: [u8; 21] = *b"scalar fixed variable";

const MUTABILITIES: [u8; 17] = *b"immutable mutable";

pub const NODES: [u8; 48] = *b"address function infix number pi prefix variable";

const ARGUMENTS: [u8; 30] = *b"identifier reference immediate";

const SOURCES: [u8; 27] = *b"integer real reference none";

// The operators, a line for each family: a family's number is its line's place, an operator's its word's.
pub const MNEMONICS: [u8; 211] =
    *b"ADD SUB DIV MUL\nEQ GE GT LE LT\nAND IOR XOR SHL SHR ASHR\nNEG NOT\nMOVE\nEXCHANGE\nLOAD\nSTORE\nSET-FREQUENCY SET-PHASE SET-SCALE SHIFT-FREQUENCY SHIFT-PHASE\nCALL\nNOP OTHER\nJUMP\nJUMP-WHEN\nJUMP-UNLESS\nLABEL\nHALT\nCONVERT";

// The family and the operator of a mnemonic, in capitals or in any letters.
pub fn operation_of(word: &[u8], any_case: bool) -> Option<(u64, u64)> {
    let mut families = MNEMONICS.split(|byte| *byte == b'\n').enumerate();
    families.find_map(|(family, operators)| {
        let operator = find(operators, word, any_case)?;
        Some((family as u64, operator as u64))
    })
}

fn return_kind_number(word: &[u8]) -> Option<usize> {
    if word == NO_RETURN {
        return Some(parameter_shape::NO_RETURN as usize);
    }
    index_of(&KINDS, word)
}

// The number that a word stands for at a place.
pub fn number_of(place: Place, word: &[u8]) -> Option<usize> {
    match place {
        Place::Kind => index_of(&KINDS, word),
        Place::ReturnKind => return_kind_number(word),
        Place::Mutability => index_of(&MUTABILITIES, word),
        Place::Shape => index_of(&SHAPES, word),
        Place::Tag => index_of(&NODES, word),
        Place::Form => index_of(&ARGUMENTS, word),
        Place::SourceForm => index_of(&SOURCES, word),
        _ => None,
    }
}

// A heading or a word of a row's lists, in any letters, is no name; nor is a mnemonic.
pub fn is_reserved(word: &[u8]) -> bool {
    let lists: [&[u8]; 7] = [
        &HEADINGS,
        &KINDS,
        &MUTABILITIES,
        &SHAPES,
        &NODES,
        &ARGUMENTS,
        &SOURCES,
    ];
    let mut lists = lists.iter();
    lists.any(|list| find(list, word, true).is_some())
}
