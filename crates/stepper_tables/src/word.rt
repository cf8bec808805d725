// One word of a file, read by its place.
use real_text::decimal::{DecimalError, read_decimal};
use script::number::{NumberError, read_number};
use stepper_words::place::Place;
use stepper_words::vocabulary::{is_reserved, number_of, operation_of};

// Why a word is not taken. A place says what is needed there; a mnemonic in small letters has its family and operator.
#[derive(Clone, Copy)]
pub enum Fault {
    NoWord,
    TooLarge,
    TooManyDigits,
    NoPoint,
    Reserved,
    Capitals(u64, u64),
    Operation(Place),
    Expected(Place),
    Comment,
}

// What a word gives: one number, two of them, a name as a text, which is the whole word or a label's, after its `@`, a name as a number.
#[derive(Drop)]
pub enum Value {
    One(u64),
    Two(u64, u64),
    Name,
    Label,
    Numbered(u64),
}

fn is_letter(byte: u8) -> bool {
    byte == b'_' || byte.is_ascii_alphabetic()
}

fn starts_number(word: &[u8]) -> bool {
    matches!(word, [b'0'..=b'9' | b'-' | b'.', ..])
}

// Letters, digits, `_` and `-`, a letter first.
fn is_name(word: &[u8]) -> bool {
    let mut bytes = word.iter();
    word.first().is_some_and(|first| is_letter(*first))
        && bytes.all(|byte| is_letter(*byte) || byte.is_ascii_digit() || *byte == b'-')
}

// A short decimal as its REAL word.
pub fn decimal(word: &[u8]) -> Result<u64, Fault> {
    read_decimal(word).map_err(|error| match error {
        DecimalError::TooLong => Fault::TooManyDigits,
        DecimalError::NoDecimal => Fault::NoWord,
    })
}

pub fn integer(word: &[u8]) -> Result<u64, Fault> {
    read_number(word).map_err(|error| match error {
        NumberError::Past => Fault::TooLarge,
        NumberError::NoNumber => Fault::NoWord,
    })
}

// A word that is no number at all says what is needed instead.
fn instead(fault: Fault, place: Place) -> Fault {
    match fault {
        Fault::NoWord => Fault::Expected(place),
        _ => fault,
    }
}

fn whole(word: &[u8], place: Place) -> Result<u64, Fault> {
    integer(word).map_err(|fault| instead(fault, place))
}

// A word that is no number and none of its place's.
fn stranger(word: &[u8], place: Place) -> Fault {
    match operation_of(word, true) {
        Some(_) => Fault::Operation(place),
        None => Fault::Expected(place),
    }
}

fn name_text(word: &[u8], place: Place) -> Result<Value, Fault> {
    if is_reserved(word) {
        return Err(Fault::Reserved);
    }
    match operation_of(word, true) {
        Some(_) => Err(Fault::Operation(place)),
        None => Ok(Value::Name),
    }
}

// At a name's place, or of a label.
fn name(word: &[u8], place: Place) -> Result<Value, Fault> {
    if starts_number(word) {
        return whole(word, place).map(Value::Numbered);
    }
    if is_name(word) {
        return name_text(word, place);
    }
    Err(Fault::Expected(place))
}

// A name after `@`.
fn label(word: &[u8]) -> Result<Value, Fault> {
    let [b'@', after @ ..] = word else {
        return Err(Fault::Expected(Place::Label));
    };
    match name(after, Place::Label)? {
        Value::Name => Ok(Value::Label),
        value => Ok(value),
    }
}

// A mnemonic in other letters than capitals is told so.
fn no_operation(word: &[u8]) -> Fault {
    match operation_of(word, true) {
        Some((family, operator)) => Fault::Capitals(family, operator),
        None => Fault::Expected(Place::Operation),
    }
}

fn operation(word: &[u8]) -> Result<Value, Fault> {
    if starts_number(word) {
        return whole(word, Place::Operation).map(Value::One);
    }
    match operation_of(word, false) {
        Some((family, operator)) => Ok(Value::Two(family, operator)),
        None => Err(no_operation(word)),
    }
}

// Digits without a point or an exponent could mean the value or the bits.
fn real(word: &[u8]) -> Result<u64, Fault> {
    if !starts_number(word) {
        return Err(stranger(word, Place::Real));
    }
    if matches!(word, [_, b'x', ..]) {
        return whole(word, Place::Real);
    }
    if word.iter().any(|byte| matches!(*byte, b'.' | b'e' | b'E')) {
        return decimal(word).map_err(|fault| instead(fault, Place::Real));
    }
    whole(word, Place::Real)?;
    Err(Fault::NoPoint)
}

// A word of the place's list, or a whole number.
fn listed(word: &[u8], place: Place) -> Result<u64, Fault> {
    if starts_number(word) {
        return whole(word, place);
    }
    match number_of(place, word) {
        Some(n) => Ok(n as u64),
        None => Err(stranger(word, place)),
    }
}

fn dash(place: Place) -> Result<Value, Fault> {
    match place {
        Place::Unused => Ok(Value::One(0)),
        _ => Err(Fault::Expected(place)),
    }
}

pub fn read_word(word: &[u8], place: Place) -> Result<Value, Fault> {
    if let b"-" = word {
        return dash(place);
    }
    match place {
        Place::Name => name(word, place),
        Place::Label => label(word),
        Place::Operation => operation(word),
        Place::Real => real(word).map(Value::One),
        _ => listed(word, place).map(Value::One),
    }
}
