// Which operand kinds have a rule, and the result of each operator; CONVERT apart. The loader lets no other operator pass: the rest arms are never reached.
#![tactic(auto)]

pub mod convert;

ghost use Rattle.std.specs.Prelude.{◌≡◌};
ghost use Rattle.operators.specs.Operators.{own_kind, arithmetic_kinds, integer_result, real_result, arithmetic_result, comparison_kinds, integer_test, real_test, comparison_test, comparison_result, logic_kinds, logic_result, unary_kinds, negated, unary_result};

use reals::real;
use tables::operator;
use tables::refusal::Refusal;
use words::{integer, kind, width};

// A literal counts as its own kind.
fn own_kind(s: u64) -> u64
    ensures { result ≡ own_kind s }
{
    match s {
        kind::INTEGER_LITERAL => kind::INTEGER,
        kind::REAL_LITERAL => kind::REAL,
        _ => s,
    }
}

pub fn arithmetic_kinds(d: u64, s: u64) -> bool
    ensures { result ≡ arithmetic_kinds d s }
{
    ((d == kind::INTEGER) | (d == kind::REAL)) & (d == own_kind(s))
}

// INTEGER and REAL have a match each: a trait of both would state each of their nine functions twice, as a method with a ghost member and at two impls.
#[tactic(auto, unfolding(crate::specs::Operators::integer_result, tables::specs::Cases::case_of))]
fn integer_result(operator: u64, a: u64, b: u64) -> Result<u64, Refusal>
    ensures { result ≡ integer_result operator a b }
{
    match operator {
        operator::ADD => Ok(integer::add(a, b)),
        operator::SUBTRACT => Ok(integer::subtract(a, b)),
        operator::DIVIDE => integer::divide(a, b).ok_or(Refusal::ZeroDivisor),
        operator::MULTIPLY => Ok(integer::multiply(a, b)),
        _ => Ok(0),
    }
}

#[tactic(auto, unfolding(crate::specs::Operators::real_result, tables::specs::Cases::case_of))]
fn real_result(operator: u64, a: u64, b: u64) -> u64
    ensures { result ≡ real_result operator a b }
{
    match operator {
        operator::ADD => real::add(a, b),
        operator::SUBTRACT => real::subtract(a, b),
        operator::DIVIDE => real::divide(a, b),
        operator::MULTIPLY => real::multiply(a, b),
        _ => 0,
    }
}

#[tactic(auto, unfolding(crate::specs::Operators::arithmetic_result))]
pub fn arithmetic_result(operator: u64, kind: u64, a: u64, b: u64) -> Result<u64, Refusal>
    ensures { result ≡ arithmetic_result operator kind a b }
{
    if kind == kind::REAL {
        return Ok(real_result(operator, a, b));
    }
    integer_result(operator, a, b)
}

pub fn comparison_kinds(l: u64, s: u64) -> bool
    ensures { result ≡ comparison_kinds l s }
{
    match s {
        kind::INTEGER_LITERAL => l < kind::REAL,
        kind::REAL_LITERAL => l == kind::REAL,
        _ => l == s,
    }
}

#[tactic(auto, unfolding(crate::specs::Operators::integer_test, tables::specs::Cases::case_of))]
fn integer_test(operator: u64, a: u64, b: u64) -> bool
    ensures { result ≡ integer_test operator a b }
{
    match operator {
        operator::EQUAL => integer::equal(a, b),
        operator::GREATER_THAN_OR_EQUAL => integer::greater_than_or_equal(a, b),
        operator::GREATER_THAN => integer::greater_than(a, b),
        operator::LESS_THAN_OR_EQUAL => integer::less_than_or_equal(a, b),
        operator::LESS_THAN => integer::less_than(a, b),
        _ => false,
    }
}

#[tactic(auto, unfolding(crate::specs::Operators::real_test, tables::specs::Cases::case_of))]
fn real_test(operator: u64, a: u64, b: u64) -> bool
    ensures { result ≡ real_test operator a b }
{
    match operator {
        operator::EQUAL => real::equal(a, b),
        operator::GREATER_THAN_OR_EQUAL => real::greater_than_or_equal(a, b),
        operator::GREATER_THAN => real::greater_than(a, b),
        operator::LESS_THAN_OR_EQUAL => real::less_than_or_equal(a, b),
        operator::LESS_THAN => real::less_than(a, b),
        _ => false,
    }
}

#[tactic(auto, unfolding(crate::specs::Operators::comparison_test))]
fn is_true(operator: u64, kind: u64, a: u64, b: u64) -> bool
    ensures { result ≡ comparison_test operator kind a b }
{
    if kind == kind::REAL {
        return real_test(operator, a, b);
    }
    integer_test(operator, a, b)
}

#[tactic(auto, unfolding(crate::specs::Operators::comparison_result))]
pub fn comparison_result(operator: u64, kind: u64, a: u64, b: u64) -> u64
    ensures { result ≡ comparison_result operator kind a b }
{
    if is_true(operator, kind, a, b) {
        return 1;
    }
    0
}

pub fn logic_kinds(d: u64, s: u64) -> bool
    ensures { result ≡ logic_kinds d s }
{
    (d < kind::REAL) & ((s < kind::REAL) | (s == kind::INTEGER_LITERAL))
}

#[tactic(auto, unfolding(crate::specs::Operators::logic_result, tables::specs::Cases::case_of))]
pub fn logic_result(operator: u64, kind: u64, v: u64, s: u64) -> Result<u64, Refusal>
    ensures { result ≡ logic_result operator kind v s }
{
    match operator {
        operator::AND => Ok(width::and(kind, v, s)),
        operator::IOR => Ok(width::ior(kind, v, s)),
        operator::XOR => Ok(width::xor(kind, v, s)),
        operator::SHL => width::shl(kind, v, s).ok_or(Refusal::NegativeShiftCount),
        operator::SHR => width::shr(kind, v, s).ok_or(Refusal::NegativeShiftCount),
        operator::ASHR => width::ashr(kind, v, s).ok_or(Refusal::NegativeShiftCount),
        _ => Ok(0),
    }
}

#[tactic(auto, unfolding(crate::specs::Operators::unary_kinds, tables::specs::Cases::case_of))]
pub fn unary_kinds(operator: u64, kind: u64) -> bool
    ensures { result ≡ unary_kinds operator kind }
{
    match operator {
        operator::NEG => (kind == kind::INTEGER) | (kind == kind::REAL),
        operator::NOT => kind < kind::REAL,
        _ => false,
    }
}

#[tactic(auto, unfolding(crate::specs::Operators::negated))]
fn negate(kind: u64, v: u64) -> u64
    ensures { result ≡ negated kind v }
{
    if kind == kind::REAL {
        return real::negate(v);
    }
    integer::negate(v)
}

#[tactic(auto, unfolding(crate::specs::Operators::unary_result, tables::specs::Cases::case_of))]
pub fn unary_result(operator: u64, kind: u64, v: u64) -> u64
    ensures { result ≡ unary_result operator kind v }
{
    match operator {
        operator::NEG => negate(kind, v),
        operator::NOT => width::not(kind, v),
        _ => 0,
    }
}
