// CONVERT between INTEGER words, 64 bits in two's complement, and REAL words, binary64 patterns.
#![tactic(auto, using(crate::proofs::Casts::number_cast), unfolding(crate::specs::Convert::integer_to_real))]

ghost use Rattle.std.specs.Prelude.{◌≡◌};
ghost use Rattle.words.specs.Convert.{integer_to_real, real_to_integer};

// 2 ^ 63, the first number past the INTEGERs.
const PAST: f64 = 9223372036854775808.0;

pub fn integer_to_real(a: u64) -> u64
    ensures { result ≡ integer_to_real a }
{
    std::num::nearest_i64_to_f64(a.cast_signed()).to_bits()
}

// The fraction is dropped. No comparison holds of a NaN.
pub fn real_to_integer(a: u64) -> Option<u64>
    ensures { result ≡ real_to_integer a }
{
    let value = std::num::f64_from_bits_with_nan(a);
    if value >= -PAST && value < PAST {
        let whole = std::num::truncating_f64_to_i64(value);
        return Some(whole.cast_unsigned());
    }
    None
}
