// A REAL word as text: the shortest decimal that reads back to the same word, as Python writes it; infinities and NaN by name.
use crate::digits::{Decimal, POINT, decimal_of};

const TEXT: usize = 32;

const SIGN: u64 = 0x8000_0000_0000_0000;

const INFINITY: u64 = 0x7FF0_0000_0000_0000;

// Text as it grows.
#[derive(Drop)]
pub struct Text {
    pub bytes: [u8; TEXT],
    pub length: usize,
}

impl Text {
    pub fn with(self, byte: u8) -> Text {
        let mut text = self;
        if text.length < TEXT {
            text.bytes[text.length] = byte;
            text.length += 1;
        }
        text
    }
}

// A digit by its place, as `Decimal` tells the point's.
fn digit(decimal: &Decimal, place: usize) -> u8 {
    let i = place.checked_sub(POINT);
    let digit = i.and_then(|i| decimal.digits.get(i).copied());
    digit.unwrap_or(0) % 10 + b'0'
}

// The digits of the places from `first` up to `end`.
fn run(decimal: &Decimal, first: usize, end: usize, text: Text) -> Text {
    (first..end).fold(text, |made, place| made.with(digit(decimal, place)))
}

fn positional(decimal: &Decimal, text: Text) -> Text {
    let point = decimal.point;
    let whole = if point > POINT {
        run(decimal, POINT, point, text)
    } else {
        text.with(b'0')
    };
    let end = (decimal.count + POINT).max(point + 1);
    run(decimal, point, end, whole.with(b'.'))
}

// At least two digits.
fn exponent(size: usize, text: Text) -> Text {
    let n = size % 1000;
    let hundreds = if n >= 100 {
        text.with((n / 100) as u8 + b'0')
    } else {
        text
    };
    hundreds
        .with((n / 10 % 10) as u8 + b'0')
        .with((n % 10) as u8 + b'0')
}

fn scientific(decimal: &Decimal, text: Text) -> Text {
    let first = run(decimal, POINT, POINT + 1, text);
    let all = if decimal.count > 1 {
        run(decimal, POINT + 1, POINT + decimal.count, first.with(b'.'))
    } else {
        first
    };
    let point = decimal.point;
    if point > POINT {
        exponent(point - POINT - 1, all.with(b'e').with(b'+'))
    } else {
        exponent(POINT + 1 - point, all.with(b'e').with(b'-'))
    }
}

// The text of a positive finite pattern, after a sign.
fn size_text(bits: u64, text: Text) -> Text {
    let decimal = decimal_of(bits);
    if (POINT - 3..=POINT + 16).contains(&decimal.point) {
        return positional(&decimal, text);
    }
    scientific(&decimal, text)
}

fn named(name: &[u8], text: Text) -> Text {
    name.iter().fold(text, |made, byte| made.with(*byte))
}

pub fn text_of(bits: u64) -> Text {
    let none = Text {
        bytes: [0; TEXT],
        length: 0,
    };
    let size = bits % SIGN;
    if size > INFINITY {
        return named(b"nan", none);
    }
    let signed = if bits < SIGN { none } else { none.with(b'-') };
    if size == INFINITY {
        return named(b"inf", signed);
    }
    if size == 0 {
        return named(b"0.0", signed);
    }
    size_text(size, signed)
}
