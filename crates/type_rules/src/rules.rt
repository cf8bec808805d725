// The typing rules of the families but frames. A rule looks names up in 01's order; the first look that fails is the error.
// Translated from quil-rs, program/type_check.rs (Apache-2.0), and changed: see NOTICE.
ghost use Rattle.std.specs.Prelude.{◌≡◌, ◌<◌};
ghost use Rattle.tables.specs.Rows.{region_rows, region_kind};
ghost use Rattle.type_rules.specs.Judgement.{verdict_at};
ghost use Rattle.type_rules.specs.Rule.{arithmetic_source, arithmetic_rule, source_rule, comparison_rule, logic_source, logic_rule, unary_rule, move_rule, exchange_rule, load_offset, load_rule, store_source, store_rule};
ghost use Rattle.type_rules.specs.Looks.{pair_of, fit_of};
ghost use Rattle.type_rules.specs.Codes.{kind_code, code_of, first_code, second_code, reference_code, operand_code};

use crate::code::{BIT_ONLY, FIRST, INTEGRAL, REAL_OR_INTEGRAL, SECOND, SOURCE};
use crate::error::{
    TypeError, data_type_mismatch, operator_operand_mismatch, undefined_memory_reference,
};
use tables::lookup::lookup_region;
use tables::rows::Instruction;
use tables::{operator, source};
use words::kind::{BIT, INTEGER, INTEGER_LITERAL, OCTET, REAL, REAL_LITERAL};

// A declared region's kind. The loader leaves no word above REAL there.
#[tactic(auto, unfolding(crate::specs::Codes::kind_code))]
pub fn kind_at(regions: &[u64], region: usize) -> u64
    requires { region < region_rows regions.now }
    ensures { result ≡ kind_code (region_kind regions.now region) }
{
    let kind = tables::rows::region_at(regions, region).kind;
    match kind {
        BIT..=OCTET => kind,
        _ => REAL,
    }
}

// An arithmetic source that is a reference.
#[tactic(auto, unfolding(crate::specs::Rule::arithmetic_source, crate::specs::Codes::code_of, crate::specs::Codes::kind_code))]
fn arithmetic_source(
    regions: &[u64],
    row: u64,
    destination: u64,
    name: u64,
) -> Result<(), TypeError>
    ensures { result ≡ verdict_at row (arithmetic_source destination (code_of regions.now name)) }
{
    let Some(region) = lookup_region(regions, name) else {
        return undefined_memory_reference(row, SOURCE);
    };
    let source = kind_at(regions, region);
    match source {
        BIT | OCTET => operator_operand_mismatch(row, SOURCE, source, REAL_OR_INTEGRAL),
        _ => {
            if destination == source {
                Ok(())
            } else {
                data_type_mismatch(row, FIRST, SOURCE, destination, source)
            }
        }
    }
}

#[tactic(auto, unfolding(crate::specs::Rule::arithmetic_rule, crate::specs::Codes::code_of, crate::specs::Codes::kind_code, crate::specs::Codes::operand_code, tables::specs::Cases::case_of))]
pub fn type_check_arithmetic(regions: &[u64], row: u64, x: Instruction) -> Result<(), TypeError>
    ensures { result ≡ verdict_at row (arithmetic_rule (first_code regions.now x) (operand_code regions.now x)) }
{
    let Some(region) = lookup_region(regions, x.first_name) else {
        return undefined_memory_reference(row, FIRST);
    };
    let destination = kind_at(regions, region);
    let form = x.source_form;
    match form {
        source::INTEGER_LITERAL => match destination {
            INTEGER => Ok(()),
            REAL => data_type_mismatch(row, FIRST, SOURCE, destination, INTEGER_LITERAL),
            _ => operator_operand_mismatch(row, FIRST, destination, REAL_OR_INTEGRAL),
        },
        source::REAL_LITERAL => match destination {
            REAL => Ok(()),
            _ => data_type_mismatch(row, FIRST, SOURCE, destination, REAL_LITERAL),
        },
        _ => match destination {
            BIT | OCTET => operator_operand_mismatch(row, FIRST, destination, REAL_OR_INTEGRAL),
            _ => arithmetic_source(regions, row, destination, x.source_first),
        },
    }
}

// How a source goes with the kind of another operand: its code where it is another kind's.
#[tactic(auto, unfolding(crate::specs::Looks::fit_of, crate::specs::Codes::code_of, crate::specs::Codes::kind_code))]
fn reference_fit(regions: &[u64], row: u64, kind: u64, name: u64) -> Result<Option<u64>, TypeError>
    ensures { result ≡ fit_of row kind (code_of regions.now name) }
{
    let Some(region) = lookup_region(regions, name) else {
        return undefined_memory_reference(row, SOURCE);
    };
    let source = kind_at(regions, region);
    if kind == source {
        Ok(None)
    } else {
        Ok(Some(source))
    }
}

#[tactic(auto, unfolding(crate::specs::Looks::fit_of, crate::specs::Codes::operand_code, tables::specs::Cases::case_of))]
fn source_fit(
    regions: &[u64],
    row: u64,
    kind: u64,
    x: Instruction,
) -> Result<Option<u64>, TypeError>
    ensures { result ≡ fit_of row kind (operand_code regions.now x) }
{
    let form = x.source_form;
    match form {
        source::INTEGER_LITERAL => match kind {
            BIT..=OCTET => Ok(None),
            _ => Ok(Some(INTEGER_LITERAL)),
        },
        source::REAL_LITERAL => match kind {
            BIT..=OCTET => Ok(Some(REAL_LITERAL)),
            _ => Ok(None),
        },
        _ => reference_fit(regions, row, kind, x.source_first),
    }
}

// MOVE's source, a comparison's rhs: against the kind of the operand at `spot`.
#[tactic(auto, unfolding(crate::specs::Rule::source_rule, crate::specs::Looks::fit_of))]
fn check_source(
    regions: &[u64],
    row: u64,
    spot: u64,
    kind: u64,
    x: Instruction,
) -> Result<(), TypeError>
    ensures { result ≡ verdict_at row (source_rule spot kind (operand_code regions.now x)) }
{
    match source_fit(regions, row, kind, x)? {
        None => Ok(()),
        Some(source) => data_type_mismatch(row, spot, SOURCE, kind, source),
    }
}

// The kinds of a row's first and second operand, or the error of the first that is undeclared.
#[tactic(auto, unfolding(crate::specs::Looks::pair_of, crate::specs::Codes::code_of, crate::specs::Codes::kind_code))]
fn pair_of(regions: &[u64], row: u64, x: Instruction) -> Result<(u64, u64), TypeError>
    ensures { result ≡ pair_of row (first_code regions.now x) (second_code regions.now x) }
{
    let Some(first) = lookup_region(regions, x.first_name) else {
        return undefined_memory_reference(row, FIRST);
    };
    let Some(second) = lookup_region(regions, x.second_name) else {
        return undefined_memory_reference(row, SECOND);
    };
    Ok((kind_at(regions, first), kind_at(regions, second)))
}

#[tactic(auto, unfolding(crate::specs::Rule::comparison_rule, crate::specs::Looks::pair_of))]
pub fn type_check_comparison(regions: &[u64], row: u64, x: Instruction) -> Result<(), TypeError>
    ensures { result ≡ verdict_at row (comparison_rule (first_code regions.now x) (second_code regions.now x) (operand_code regions.now x)) }
{
    let (destination, lhs) = pair_of(regions, row, x)?;
    match destination {
        BIT => check_source(regions, row, SECOND, lhs, x),
        _ => operator_operand_mismatch(row, FIRST, destination, BIT_ONLY),
    }
}

// A source of binary logic that is a reference.
#[tactic(auto, unfolding(crate::specs::Rule::logic_source, crate::specs::Codes::code_of, crate::specs::Codes::kind_code))]
fn logic_reference(regions: &[u64], row: u64, name: u64) -> Result<(), TypeError>
    ensures { result ≡ verdict_at row (logic_source (code_of regions.now name)) }
{
    let Some(region) = lookup_region(regions, name) else {
        return undefined_memory_reference(row, SOURCE);
    };
    let source = kind_at(regions, region);
    match source {
        BIT..=OCTET => Ok(()),
        _ => operator_operand_mismatch(row, SOURCE, source, INTEGRAL),
    }
}

// A source of binary logic. The loader lets no real literal through.
#[tactic(auto, unfolding(crate::specs::Rule::logic_source, crate::specs::Codes::operand_code, tables::specs::Cases::case_of))]
fn logic_source(regions: &[u64], row: u64, x: Instruction) -> Result<(), TypeError>
    ensures { result ≡ verdict_at row (logic_source (operand_code regions.now x)) }
{
    let form = x.source_form;
    match form {
        source::INTEGER_LITERAL => Ok(()),
        source::REAL_LITERAL => operator_operand_mismatch(row, SOURCE, REAL_LITERAL, INTEGRAL),
        _ => logic_reference(regions, row, x.source_first),
    }
}

#[tactic(auto, unfolding(crate::specs::Rule::logic_rule, crate::specs::Codes::code_of, crate::specs::Codes::kind_code))]
pub fn type_check_binary_logic(regions: &[u64], row: u64, x: Instruction) -> Result<(), TypeError>
    ensures { result ≡ verdict_at row (logic_rule (first_code regions.now x) (operand_code regions.now x)) }
{
    let Some(region) = lookup_region(regions, x.first_name) else {
        return undefined_memory_reference(row, FIRST);
    };
    let destination = kind_at(regions, region);
    match destination {
        BIT..=OCTET => logic_source(regions, row, x),
        _ => operator_operand_mismatch(row, FIRST, destination, INTEGRAL),
    }
}

// NEG, else NOT.
#[tactic(auto, unfolding(crate::specs::Rule::unary_rule, crate::specs::Codes::code_of, crate::specs::Codes::kind_code))]
pub fn type_check_unary_logic(regions: &[u64], row: u64, x: Instruction) -> Result<(), TypeError>
    ensures { result ≡ verdict_at row (unary_rule x.operator (first_code regions.now x)) }
{
    let Some(region) = lookup_region(regions, x.first_name) else {
        return undefined_memory_reference(row, FIRST);
    };
    let operand = kind_at(regions, region);
    let operator = x.operator;
    match operator {
        operator::NEG => match operand {
            BIT | OCTET => operator_operand_mismatch(row, FIRST, operand, REAL_OR_INTEGRAL),
            _ => Ok(()),
        },
        _ => match operand {
            BIT..=OCTET => Ok(()),
            _ => operator_operand_mismatch(row, FIRST, operand, INTEGRAL),
        },
    }
}

#[tactic(auto, unfolding(crate::specs::Rule::move_rule, crate::specs::Codes::code_of, crate::specs::Codes::kind_code))]
pub fn type_check_move(regions: &[u64], row: u64, x: Instruction) -> Result<(), TypeError>
    ensures { result ≡ verdict_at row (move_rule (first_code regions.now x) (operand_code regions.now x)) }
{
    let Some(region) = lookup_region(regions, x.first_name) else {
        return undefined_memory_reference(row, FIRST);
    };
    let destination = kind_at(regions, region);
    check_source(regions, row, FIRST, destination, x)
}

#[tactic(auto, unfolding(crate::specs::Rule::exchange_rule, crate::specs::Looks::pair_of))]
pub fn type_check_exchange(regions: &[u64], row: u64, x: Instruction) -> Result<(), TypeError>
    ensures { result ≡ verdict_at row (exchange_rule (first_code regions.now x) (second_code regions.now x)) }
{
    let (left, right) = pair_of(regions, row, x)?;
    if left == right {
        Ok(())
    } else {
        data_type_mismatch(row, FIRST, SECOND, left, right)
    }
}

// A LOAD's offset, and then the kinds of its destination and its source.
#[tactic(auto, unfolding(crate::specs::Rule::load_offset, crate::specs::Codes::code_of, crate::specs::Codes::kind_code))]
fn load_offset(
    regions: &[u64],
    row: u64,
    destination: u64,
    source: u64,
    name: u64,
) -> Result<(), TypeError>
    ensures { result ≡ verdict_at row (load_offset destination source (code_of regions.now name)) }
{
    let Some(region) = lookup_region(regions, name) else {
        return undefined_memory_reference(row, SOURCE);
    };
    let offset = kind_at(regions, region);
    match offset {
        INTEGER => {
            if destination == source {
                Ok(())
            } else {
                data_type_mismatch(row, FIRST, SECOND, destination, source)
            }
        }
        _ => operator_operand_mismatch(row, SOURCE, offset, INTEGRAL),
    }
}

#[tactic(auto, unfolding(crate::specs::Rule::load_rule, crate::specs::Looks::pair_of))]
pub fn type_check_load(regions: &[u64], row: u64, x: Instruction) -> Result<(), TypeError>
    ensures { result ≡ verdict_at row (load_rule (first_code regions.now x) (second_code regions.now x) (reference_code regions.now x)) }
{
    let (destination, source) = pair_of(regions, row, x)?;
    load_offset(regions, row, destination, source, x.source_first)
}

// A STORE's source against the kind of its destination: the source is the error's `dst`.
#[tactic(auto, unfolding(crate::specs::Rule::store_source, crate::specs::Looks::fit_of))]
fn store_source(
    regions: &[u64],
    row: u64,
    destination: u64,
    x: Instruction,
) -> Result<(), TypeError>
    ensures { result ≡ verdict_at row (store_source destination (operand_code regions.now x)) }
{
    match source_fit(regions, row, destination, x)? {
        None => Ok(()),
        Some(source) => data_type_mismatch(row, SOURCE, FIRST, source, destination),
    }
}

#[tactic(auto, unfolding(crate::specs::Rule::store_rule, crate::specs::Looks::pair_of))]
pub fn type_check_store(regions: &[u64], row: u64, x: Instruction) -> Result<(), TypeError>
    ensures { result ≡ verdict_at row (store_rule (first_code regions.now x) (second_code regions.now x) (operand_code regions.now x)) }
{
    let (destination, offset) = pair_of(regions, row, x)?;
    match offset {
        INTEGER => store_source(regions, row, destination, x),
        _ => operator_operand_mismatch(row, SECOND, offset, INTEGRAL),
    }
}
