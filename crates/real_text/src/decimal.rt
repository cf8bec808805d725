// A short decimal as a REAL word: 15 digits at most, perhaps a point and an exponent, so that number and power of ten are binary64 exactly and their product or quotient is rounded once.
ghost use Rattle.std.specs.Prelude.{◌≤◌};

use reals::real;

// Why a text is not read: it is no decimal, or has too many digits or too large a power of ten.
#[derive(Clone, Copy, PartialEq, Eq, Debug)]
pub enum DecimalError {
    NoDecimal,
    TooLong,
}

const MOST_DIGITS: u64 = 15;

// The largest power of ten that is a binary64 number exactly.
const MOST_TENS: u64 = 22;

// The number so far, its digits, those after the point, how many points, and whether anything else was seen. The counts are at most the text's length; the number is read only where its digits are few.
#[derive(Clone, Copy, Default)]
struct Seen {
    number: u64,
    digits: u64,
    after: u64,
    points: u64,
    strange: bool,
}

impl Seen {
    fn of(text: &[u8]) -> Seen {
        let mut seen = Seen::default();
        for byte in text {
            seen.see(*byte);
        }
        seen
    }

    fn see(&mut self, byte: u8) {
        match byte {
            b'0'..=b'9' => self.see_digit(u64::from(byte - b'0')),
            b'.' => self.points = self.points.wrapping_add(1),
            _ => self.strange = true,
        }
    }

    fn see_digit(&mut self, digit: u64) {
        self.number = self.number.wrapping_mul(10).wrapping_add(digit);
        self.digits = self.digits.wrapping_add(1);
        if self.points > 0 {
            self.after = self.after.wrapping_add(1);
        }
    }

    fn is_number(self) -> bool {
        !self.strange && self.points <= 1 && self.digits > 0
    }

    fn is_short(self) -> bool {
        self.digits <= MOST_DIGITS
    }

    fn is_whole(self) -> bool {
        self.is_number() && self.points == 0
    }
}

fn pattern_of_number(n: u64) -> u64 {
    real::pattern_of(std::num::nearest_u64_to_f64(n))
}

// 10 to the power n as a REAL word: the product of two, which is exact.
fn pattern_of_tens(n: u32) -> u64
    requires { n ≤ 22 }
{
    let low = n.min(11);
    real::multiply(
        pattern_of_number(10u64.pow(low)),
        pattern_of_number(10u64.pow(n - low)),
    )
}

// The number times 10 to the power `up`, by 10 to the power `down`.
fn scaled(negative: bool, number: u64, up: u64, down: u64) -> Result<u64, DecimalError> {
    let distance = up.abs_diff(down);
    if distance > MOST_TENS {
        return Err(DecimalError::TooLong);
    }
    let number = pattern_of_number(number);
    let tens = pattern_of_tens(distance as u32);
    let size = if down <= up {
        real::multiply(number, tens)
    } else {
        real::divide(number, tens)
    };
    Ok(if negative { real::negate(size) } else { size })
}

// Whether a minus stands first, and the text after it.
fn after_minus(text: &[u8]) -> (bool, &[u8]) {
    match text {
        [b'-', after @ ..] => (true, after),
        _ => (false, text),
    }
}

// The exponent's digits begin the text or stand after their sign.
fn with_exponent(negative: bool, seen: Seen, text: &[u8]) -> Result<u64, DecimalError> {
    let (down, digits) = match text {
        [b'+', after @ ..] => (false, after),
        _ => after_minus(text),
    };
    let power = Seen::of(digits);
    if !power.is_whole() {
        return Err(DecimalError::NoDecimal);
    }
    if !power.is_short() || !seen.is_short() {
        return Err(DecimalError::TooLong);
    }
    if down {
        let tens = seen.after.wrapping_add(power.number);
        return scaled(negative, seen.number, 0, tens);
    }
    scaled(negative, seen.number, power.number, seen.after)
}

pub fn read_decimal(text: &[u8]) -> Result<u64, DecimalError> {
    let (negative, size) = after_minus(text);
    let mut parts = size.splitn(2, |byte| matches!(*byte, b'e' | b'E'));
    let seen = Seen::of(parts.next().unwrap_or(&[]));
    if !seen.is_number() {
        return Err(DecimalError::NoDecimal);
    }
    if let Some(exponent) = parts.next() {
        return with_exponent(negative, seen, exponent);
    }
    if !seen.is_short() {
        return Err(DecimalError::TooLong);
    }
    scaled(negative, seen.number, 0, seen.after)
}
