// The tokens of a text. Spaces, line feeds and comments, from `#` to the end of the line, stand between them.
ghost use Rattle.std.specs.Prelude.{◌<◌, ◌≤◌, length, ◌≢◌};

// The text's end, a decimal number, a number past 2^64 - 1, or any other byte.
#[derive(Clone, Copy)]
pub enum Found {
    End,
    Number(u64),
    TooLarge,
    Sign(u8),
}

// A token, and the place after it.
#[derive(Clone, Copy)]
pub struct Token {
    pub found: Found,
    pub next: usize,
}

impl Token {
    pub fn is_end(self) -> bool {
        matches!(self.found, Found::End)
    }

    // The number; 0 for a token that is none.
    pub fn number(self) -> u64 {
        match self.found {
            Found::Number(n) => n,
            _ => 0,
        }
    }

    // The sign's byte; 0 for a token that is none.
    pub fn sign(self) -> u8 {
        match self.found {
            Found::Sign(byte) => byte,
            _ => 0,
        }
    }
}

fn is_blank(byte: u8) -> bool {
    matches!(byte, b' ' | b'\n')
}

// Whether a byte belongs to a comment, where the byte before it did or did not.
fn in_comment(byte: u8, comment: bool) -> bool {
    if comment { byte != b'\n' } else { byte == b'#' }
}

// The first place from `at` on where a token begins, or the text's length.
fn skip(text: &[u8], at: usize) -> usize
    ensures within { result ≤ length text.now }
    ensures after { result < length text.now → at ≤ result }
{
    let mut comment = false;
    for i in at..text.len() {
        comment = in_comment(text[i], comment);
        if !comment && !is_blank(text[i]) {
            return i;
        }
    }
    text.len()
}

// A number with one more digit. Digits are the bytes 48 to 57.
fn append(number: Found, byte: u8) -> Found {
    let Found::Number(value) = number else {
        return number;
    };
    let digit = u64::from(byte % 16);
    value
        .checked_mul(10)
        .and_then(|tens| tens.checked_add(digit))
        .map_or(Found::TooLarge, Found::Number)
}

// The number whose first digit stands at `at`: all digits up to another byte or the text's end.
fn number_at(text: &[u8], at: usize) -> Token
    requires { at < length text.now }
    ensures within { result.next ≤ length text.now }
    ensures after { at < result.next }
{
    let mut found = append(Found::Number(0), text[at]);
    for i in at + 1..text.len() {
        if !text[i].is_ascii_digit() {
            return Token { found, next: i };
        }
        found = append(found, text[i]);
    }
    Token {
        found,
        next: text.len(),
    }
}

// The first token from `at` on.
pub fn token_at(text: &[u8], at: usize) -> Token
    ensures within { result.next ≤ length text.now }
    ensures after { (result.found ≢ Found.End) → at < result.next }
{
    let start = skip(text, at);
    if start >= text.len() {
        return Token {
            found: Found::End,
            next: start,
        };
    }
    let byte = text[start];
    if byte.is_ascii_digit() {
        return number_at(text, start);
    }
    Token {
        found: Found::Sign(byte),
        next: start + 1,
    }
}
