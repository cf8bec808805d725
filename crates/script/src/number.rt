// A word of a text as a number: decimal, with a minus as two's complement, or hexadecimal after `0x`.
use crate::token::{Found, token_at};

// Why a word is not read: it is no number, or 64 bits do not hold it.
#[derive(Clone, Copy, PartialEq, Eq, Debug)]
pub enum NumberError {
    NoNumber,
    Past,
}

const HALF: u64 = 0x8000_0000_0000_0000;

// The text as one decimal number.
fn decimal(text: &[u8]) -> Result<u64, NumberError> {
    let token = token_at(text, 0);
    if token.next != text.len() {
        return Err(NumberError::NoNumber);
    }
    match token.found {
        Found::Number(n) => Ok(n),
        Found::TooLarge => Err(NumberError::Past),
        _ => Err(NumberError::NoNumber),
    }
}

fn negative(digits: &[u8]) -> Result<u64, NumberError> {
    let n = decimal(digits)?;
    if n > HALF {
        return Err(NumberError::Past);
    }
    Ok(n.wrapping_neg())
}

fn hexadecimal(digits: &[u8]) -> Result<u64, NumberError> {
    let mut n = 0u64;
    for byte in digits {
        let Some(digit) = char::from(*byte).to_digit(16) else {
            return Err(NumberError::NoNumber);
        };
        if n >= 0x1000_0000_0000_0000 {
            return Err(NumberError::Past);
        }
        n = n * 16 + u64::from(digit);
    }
    Ok(n)
}

pub fn read_number(text: &[u8]) -> Result<u64, NumberError> {
    match text {
        [b'0', b'x', digits @ ..] if !digits.is_empty() => hexadecimal(digits),
        [b'-', digits @ ..] => negative(digits),
        _ => decimal(text),
    }
}
