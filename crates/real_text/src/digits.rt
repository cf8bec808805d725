// The shortest digits that read back to the same binary64, and of these the nearest: Steele and White's free-format algorithm, in exact numbers.
ghost use Rattle.std.specs.Prelude.{◌≤◌};

use crate::limbs::Large;

pub const MOST_DIGITS: usize = 17;

// A decimal point before the first digit is told as 1000, one place to the right of it as 1001.
pub const POINT: usize = 1000;

// The point moves at most 324 places.
const MOST_MOVES: usize = 400;

const HIDDEN: u64 = 0x10_0000_0000_0000;

// Digits as bytes, the first not 0, and the point's place.
#[derive(Clone, Copy)]
pub struct Decimal {
    pub digits: [u8; MOST_DIGITS],
    pub count: usize,
    pub point: usize,
    ghost few: { count ≤ 17 },
    ghost near_left: { 600 ≤ point },
    ghost near_right: { point ≤ 1401 },
}

// The value by the scale is what is left to write out. Above and below are how far the neighbours' halfway points lie, which read back as the pattern itself where it is even.
#[derive(Drop)]
struct Fraction {
    value: Large,
    scale: Large,
    above: Large,
    below: Large,
    even: bool,
}

impl Fraction {
    // Of a positive finite pattern.
    fn of(bits: u64) -> Fraction {
        let exponent = bits / HIDDEN % 2048;
        let fraction = bits % HIDDEN;
        let (whole, power) = if exponent == 0 {
            (fraction, 1)
        } else {
            (fraction + HIDDEN, exponent)
        };
        // The neighbour below is nearer where the fraction is 0: everything twice, but below.
        let extra = u64::from(fraction == 0 && exponent > 1);
        let up = power.saturating_sub(1075);
        let down = 1075u64.saturating_sub(power);
        Fraction {
            value: Large::shifted(whole, up + extra + 1),
            scale: Large::shifted(1, down + extra + 1),
            above: Large::shifted(1, up + extra),
            below: Large::shifted(1, up),
            even: fraction % 2 == 0,
        }
    }

    // Whether the value with what lies above reaches the scale: the digits are at an end, or the point is too far left.
    fn reaches(&self) -> bool {
        let sum = self.value.plus(&self.above);
        sum > self.scale || self.even && sum == self.scale
    }

    fn tenfold(&mut self) {
        self.value.times_ten();
        self.above.times_ten();
        self.below.times_ten();
    }

    // The point moved right while the value reaches the scale.
    fn scale_up(&mut self) -> usize
        ensures { result ≤ MOST_MOVES }
    {
        for point in 0..MOST_MOVES {
            if !self.reaches() {
                return point;
            }
            self.scale.times_ten();
        }
        MOST_MOVES
    }

    // The point moved left until the value reaches the scale; one place too far, so that the first digit is had by dividing.
    fn scale_down(&mut self) -> usize
        ensures { result ≤ MOST_MOVES }
    {
        for moved in 0..MOST_MOVES {
            if self.reaches() {
                return moved;
            }
            self.tenfold();
        }
        MOST_MOVES
    }

    // How often the scale goes into the value, which keeps the rest.
    fn divide(&mut self) -> u8
        ensures { result ≤ 9 }
    {
        for digit in 0..9 {
            if self.value < self.scale {
                return digit;
            }
            self.value.subtract(&self.scale);
        }
        9
    }

    // What is left of the value reads back as the pattern with the digits so far.
    fn is_low(&self) -> bool {
        self.value < self.below || self.even && self.value == self.below
    }

    // Whether the last digit is nearer one up; halfway, where it is odd.
    fn rounds_up(&self, digit: u8) -> bool {
        let twice = self.value.plus(&self.value);
        twice > self.scale || digit % 2 == 1 && twice == self.scale
    }

    // The digits, from a value that is below ten times the scale; how many.
    fn generate(&mut self, digits: &mut [u8; MOST_DIGITS]) -> usize
        ensures { result ≤ MOST_DIGITS }
    {
        for (i, place) in digits.iter_mut().enumerate() {
            let digit = self.divide();
            let low = self.is_low();
            let high = self.reaches();
            // The last digit, where both it and the next may read back.
            let next = high && (!low || self.rounds_up(digit));
            *place = if next { digit + 1 } else { digit };
            if low || high {
                return i + 1;
            }
            self.tenfold();
        }
        MOST_DIGITS
    }
}

// The digits of a positive finite pattern.
pub fn decimal_of(bits: u64) -> Decimal {
    let mut fraction = Fraction::of(bits);
    let mut digits = [0; MOST_DIGITS];
    let right = fraction.scale_up();
    // Where the point moved right the value is below the scale: one place more gives the first digit.
    let left = fraction.scale_down();
    let count = fraction.generate(&mut digits);
    Decimal {
        digits,
        count,
        point: POINT + 1 + right - left,
    }
}
