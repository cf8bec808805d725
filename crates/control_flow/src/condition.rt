// Refusal 21: a jump's condition is a declared BIT.
ghost use Rattle.std.specs.Prelude.{◌≡◌};
ghost use Rattle.control_flow.specs.Condition.{has_condition, condition_fits, conditions_fit};

use tables::family;
use tables::lookup::lookup_region;
use tables::rows::{INSTRUCTION_WIDTH, Instruction, instruction_at, region_at};
use words::kind;

fn has_condition(x: Instruction) -> bool
    ensures { result ≡ has_condition x }
{
    (x.family == family::JUMP_WHEN) | (x.family == family::JUMP_UNLESS)
}

#[tactic(auto, unfolding(crate::specs::Condition::condition_fits))]
fn condition_fits(regions: &[u64], x: Instruction) -> bool
    ensures { result ≡ condition_fits regions.now x }
{
    if !has_condition(x) {
        return true;
    }
    let Some(r) = lookup_region(regions, x.first_name) else {
        return false;
    };
    let region = region_at(regions, r);
    region.kind == kind::BIT
}

pub fn conditions_fit(regions: &[u64], instructions: &[u64]) -> bool
    ensures { result ≡ conditions_fit regions.now instructions.now }
{
    let rows = instructions.len() / INSTRUCTION_WIDTH;
    (0..rows).all(|row| condition_fits(regions, instruction_at(instructions, row)))
}
