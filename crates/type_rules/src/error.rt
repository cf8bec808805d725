// Verdicts, and the four type errors under quil-rs's names.
// Translated from quil-rs, program/type_check.rs (Apache-2.0), and changed: see NOTICE.
ghost use Rattle.std.specs.Prelude.{◌≡◌};
ghost use Rattle.type_rules.specs.Judgement.{undeclared_at, data_type_mismatch, real_value_required, operator_operand_mismatch, verdict_at};

use crate::code::{ABSENT, DATA_TYPE, NO_SPOT, OPERAND, REAL_REQUIRED, UNDEFINED};
use tables::refusal::Refusal;

// 01's six words.
#[derive(Clone, Copy, PartialEq, Eq, Debug)]
pub struct TypeError {
    pub kind: u64,
    pub row: u64,
    pub spot: u64,
    pub src_spot: u64,
    pub first_code: u64,
    pub second_code: u64,
}

// Why a program is turned down: a refusal; or 5, with the first type error.
#[derive(Clone, Copy, PartialEq, Eq, Debug)]
pub enum ProgramError {
    Refused(Refusal),
    Type(TypeError),
}

impl From<Refusal> for ProgramError {
    ghost use Rattle.type_rules.specs.declared.error.ProgramError.{ProgramError};

    ghost from_gives = { λ r e. e ≡ ProgramError.Refused r };

    fn from(refusal: Refusal) -> Self {
        ProgramError::Refused(refusal)
    }
}

impl From<TypeError> for ProgramError {
    ghost use Rattle.type_rules.specs.declared.error.ProgramError.{ProgramError};

    ghost from_gives = { λ x e. e ≡ ProgramError.Type x };

    fn from(error: TypeError) -> Self {
        ProgramError::Type(error)
    }
}

// Of any look, as quil-rs has it.
pub fn undefined_memory_reference<T>(row: u64, spot: u64) -> Result<T, TypeError>
    ensures { result ≡ Err (undeclared_at row spot) }
{
    Err(TypeError {
        kind: UNDEFINED,
        row,
        spot,
        src_spot: NO_SPOT,
        first_code: ABSENT,
        second_code: ABSENT,
    })
}

pub fn data_type_mismatch(
    row: u64,
    dst_spot: u64,
    src_spot: u64,
    dst: u64,
    src: u64,
) -> Result<(), TypeError>
    ensures { result ≡ verdict_at row (data_type_mismatch dst_spot src_spot dst src) }
{
    Err(TypeError {
        kind: DATA_TYPE,
        row,
        spot: dst_spot,
        src_spot,
        first_code: dst,
        second_code: src,
    })
}

pub fn real_value_required(row: u64, spot: u64, found: u64) -> Result<(), TypeError>
    ensures { result ≡ verdict_at row (real_value_required spot found) }
{
    Err(TypeError {
        kind: REAL_REQUIRED,
        row,
        spot,
        src_spot: NO_SPOT,
        first_code: found,
        second_code: ABSENT,
    })
}

pub fn operator_operand_mismatch(
    row: u64,
    spot: u64,
    found: u64,
    required: u64,
) -> Result<(), TypeError>
    ensures { result ≡ verdict_at row (operator_operand_mismatch spot found required) }
{
    Err(TypeError {
        kind: OPERAND,
        row,
        spot,
        src_spot: NO_SPOT,
        first_code: found,
        second_code: required,
    })
}
