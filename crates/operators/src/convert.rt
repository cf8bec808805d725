// CONVERT: which kinds have a rule, its result; and refusal 22, of the declared kinds.
ghost use Rattle.std.specs.Prelude.{◌≡◌};
ghost use Rattle.operators.specs.Convert.{convert_kinds, converted_kind, convert_result, convertible, conversion_fits, conversions_fit};

use tables::family;
use tables::lookup::lookup_region;
use tables::refusal::Refusal;
use tables::rows::{INSTRUCTION_WIDTH, Instruction, instruction_at, region_at};
use words::convert::{integer_to_real, real_to_integer};
use words::kind;

pub fn convert_kinds(source: u64) -> bool
    ensures { result ≡ convert_kinds source }
{
    (source == kind::INTEGER) | (source == kind::REAL)
}

pub fn converted_kind(source: u64) -> u64
    ensures { result ≡ converted_kind source }
{
    if source == kind::REAL {
        return kind::INTEGER;
    }
    kind::REAL
}

#[tactic(auto, unfolding(crate::specs::Convert::convert_result))]
pub fn convert_result(source: u64, word: u64) -> Result<u64, Refusal>
    ensures { result ≡ convert_result source word }
{
    if source == kind::REAL {
        return real_to_integer(word).ok_or(Refusal::OutsideInteger);
    }
    Ok(integer_to_real(word))
}

fn kinds_convert(destination: u64, source: u64) -> bool
    ensures { result ≡ convertible destination source }
{
    ((destination == kind::REAL) & (source == kind::INTEGER))
        | ((destination == kind::INTEGER) & (source == kind::REAL))
}

#[tactic(auto, unfolding(crate::specs::Convert::conversion_fits))]
fn conversion_fits(regions: &[u64], x: Instruction) -> bool
    ensures { result ≡ conversion_fits regions.now x }
{
    if x.family != family::CONVERT {
        return true;
    }
    let Some(d) = lookup_region(regions, x.first_name) else {
        return false;
    };
    let Some(s) = lookup_region(regions, x.source_first) else {
        return false;
    };
    let destination = region_at(regions, d);
    let source = region_at(regions, s);
    kinds_convert(destination.kind, source.kind)
}

pub fn conversions_fit(regions: &[u64], instructions: &[u64]) -> bool
    ensures { result ≡ conversions_fit regions.now instructions.now }
{
    let rows = instructions.len() / INSTRUCTION_WIDTH;
    (0..rows).all(|row| conversion_fits(regions, instruction_at(instructions, row)))
}
