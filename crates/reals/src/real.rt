// REAL words: binary64 patterns.
#![tactic(auto, unfolding(crate::specs::Real::real_add, crate::specs::Real::real_subtract, crate::specs::Real::real_multiply, crate::specs::Real::real_divide, crate::specs::Real::real_negate, crate::specs::Real::real_equal, crate::specs::Real::real_greater_than_or_equal, crate::specs::Real::real_greater_than, crate::specs::Real::real_less_than_or_equal, crate::specs::Real::real_less_than))]

ghost use Rattle.std.specs.Prelude.{◌≡◌};
ghost use Rattle.reals.specs.Real.{real_value, real_pattern, real_add, real_subtract, real_multiply, real_divide, real_negate, real_equal, real_greater_than_or_equal, real_greater_than, real_less_than_or_equal, real_less_than, real_above_epsilon};

use std::num::{f64_from_bits_with_nan, f64_to_bits_with_nan};

// The value of a pattern; a NaN for each pattern of one.
pub fn value_of(a: u64) -> f64
    ensures { result ≡ real_value a }
{
    f64_from_bits_with_nan(a)
}

// The pattern of a value; one and the same for each NaN.
pub fn pattern_of(x: f64) -> u64
    ensures { result ≡ real_pattern x }
{
    f64_to_bits_with_nan(x)
}

pub fn add(a: u64, b: u64) -> u64
    ensures { result ≡ real_add a b }
{
    pattern_of(value_of(a) + value_of(b))
}

pub fn subtract(a: u64, b: u64) -> u64
    ensures { result ≡ real_subtract a b }
{
    pattern_of(value_of(a) - value_of(b))
}

pub fn multiply(a: u64, b: u64) -> u64
    ensures { result ≡ real_multiply a b }
{
    pattern_of(value_of(a) * value_of(b))
}

pub fn divide(a: u64, b: u64) -> u64
    ensures { result ≡ real_divide a b }
{
    pattern_of(value_of(a) / value_of(b))
}

pub fn negate(a: u64) -> u64
    ensures { result ≡ real_negate a }
{
    pattern_of(-value_of(a))
}

pub fn equal(a: u64, b: u64) -> bool
    ensures { result ≡ real_equal a b }
{
    value_of(a) == value_of(b)
}

pub fn greater_than_or_equal(a: u64, b: u64) -> bool
    ensures { result ≡ real_greater_than_or_equal a b }
{
    value_of(a) >= value_of(b)
}

pub fn greater_than(a: u64, b: u64) -> bool
    ensures { result ≡ real_greater_than a b }
{
    value_of(a) > value_of(b)
}

pub fn less_than_or_equal(a: u64, b: u64) -> bool
    ensures { result ≡ real_less_than_or_equal a b }
{
    value_of(a) <= value_of(b)
}

pub fn less_than(a: u64, b: u64) -> bool
    ensures { result ≡ real_less_than a b }
{
    value_of(a) < value_of(b)
}

// Whether the size of a value is above 2 ^ -52. A NaN's is not, since the comparison fails.
pub fn above_epsilon(a: u64) -> bool
    ensures { result ≡ real_above_epsilon a }
{
    value_of(a).abs() > f64::EPSILON
}
