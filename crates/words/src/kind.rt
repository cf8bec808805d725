// The kinds of cells, and which words each holds.
// Numbers and no enum: the word of a lent table may be any, and what is said of a row is said of every word.
#![tactic(auto, unfolding(crate::specs::Kind::width_of, crate::specs::Kind::fits_kind))]

ghost use Rattle.std.specs.Prelude.{◌≡◌};
ghost use Rattle.words.specs.Kind.{width_of, fits_kind};

pub const BIT: u64 = 0;

pub const INTEGER: u64 = 1;

pub const OCTET: u64 = 2;

pub const REAL: u64 = 3;

// A literal's code, beside the kinds.
pub const INTEGER_LITERAL: u64 = 4;

pub const REAL_LITERAL: u64 = 5;

// How many bits a word of a kind has.
pub fn width(kind: u64) -> u64
    ensures { result ≡ width_of kind }
{
    match kind {
        BIT => 1,
        OCTET => 8,
        _ => 64,
    }
}

// Whether `kind` is a kind and `word` is one of its words. Every u64 is a word of 64 bits.
pub fn fits(kind: u64, word: u64) -> bool
    ensures { result ≡ fits_kind kind word }
{
    match kind {
        BIT => word < 2,
        OCTET => word < 256,
        _ => kind <= REAL,
    }
}
