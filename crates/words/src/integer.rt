// INTEGER words: 64 bits in two's complement.
#![tactic(auto, using(crate::proofs::Casts::operators, crate::proofs::Equal::eq_word), unfolding(crate::specs::Integer::integer_divide, crate::specs::Integer::integer_is_negative, crate::specs::Integer::integer_greater_than_or_equal, crate::specs::Integer::integer_greater_than, crate::specs::Integer::integer_less_than_or_equal, crate::specs::Integer::integer_less_than))]

ghost use Rattle.std.specs.Prelude.{◌≡◌};
ghost use Rattle.words.specs.Integer.{integer_add, integer_subtract, integer_multiply, integer_negate, integer_divide, integer_is_negative, integer_equal, integer_greater_than_or_equal, integer_greater_than, integer_less_than_or_equal, integer_less_than};

pub fn add(a: u64, b: u64) -> u64
    ensures { result ≡ integer_add a b }
{
    a.wrapping_add(b)
}

pub fn subtract(a: u64, b: u64) -> u64
    ensures { result ≡ integer_subtract a b }
{
    a.wrapping_sub(b)
}

pub fn negate(a: u64) -> u64
    ensures { result ≡ integer_negate a }
{
    a.wrapping_neg()
}

// Signed and unsigned products agree modulo 2 ^ 64.
pub fn multiply(a: u64, b: u64) -> u64
    ensures { result ≡ integer_multiply a b }
{
    a.wrapping_mul(b)
}

// -2 ^ 63 by -1 gives 2 ^ 63, the word of -2 ^ 63.
pub fn divide(a: u64, b: u64) -> Option<u64>
    ensures { result ≡ integer_divide a b }
{
    if b == 0 {
        return None;
    }
    let quotient = a.cast_signed().wrapping_div(b.cast_signed());
    Some(quotient.cast_unsigned())
}

pub fn is_negative(a: u64) -> bool
    ensures { result ≡ integer_is_negative a }
{
    a.cast_signed().is_negative()
}

pub fn equal(a: u64, b: u64) -> bool
    ensures { result ≡ integer_equal a b }
{
    a == b
}

pub fn less_than_or_equal(a: u64, b: u64) -> bool
    ensures { result ≡ integer_less_than_or_equal a b }
{
    a.cast_signed() <= b.cast_signed()
}

pub fn less_than(a: u64, b: u64) -> bool
    ensures { result ≡ integer_less_than a b }
{
    a.cast_signed() < b.cast_signed()
}

pub fn greater_than_or_equal(a: u64, b: u64) -> bool
    ensures { result ≡ integer_greater_than_or_equal a b }
{
    less_than_or_equal(b, a)
}

pub fn greater_than(a: u64, b: u64) -> bool
    ensures { result ≡ integer_greater_than a b }
{
    less_than(b, a)
}
