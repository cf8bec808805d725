// Operators on the bits of a word, at the width of its kind.
#![tactic(auto, using(crate::proofs::Shifts::shifts), unfolding(crate::specs::Kind::width_of, crate::specs::Width::low_bits, crate::specs::Width::not_at, crate::specs::Width::and_at, crate::specs::Width::ior_at, crate::specs::Width::xor_at, crate::specs::Width::shl_at, crate::specs::Width::shr_at, crate::specs::Width::shifted, crate::specs::Width::shift_left, crate::specs::Width::shift_right, crate::specs::Width::shift_right_arithmetic))]

ghost use Rattle.std.specs.Prelude.{◌≡◌};
ghost use Rattle.words.specs.Kind.{width_of};
ghost use Rattle.words.specs.Width.{ones, low_bits, not_at, and_at, ior_at, xor_at, shl_at, shr_at, ashr_at, shifted, shift_left, shift_right, shift_right_arithmetic};

use crate::{integer, kind};

// The word with all bits set.
fn full(kind: u64) -> u64
    ensures { result ≡ ones (width_of kind) }
{
    match kind {
        kind::BIT => 1,
        kind::OCTET => 255,
        _ => u64::MAX,
    }
}

fn low_bits(kind: u64, v: u64) -> u64
    ensures { result ≡ low_bits (width_of kind) v }
{
    match kind {
        kind::BIT => v % 2,
        kind::OCTET => v % 256,
        _ => v,
    }
}

pub fn not(kind: u64, v: u64) -> u64
    ensures { result ≡ not_at (width_of kind) v }
{
    full(kind) - low_bits(kind, v)
}

pub fn and(kind: u64, v: u64, s: u64) -> u64
    ensures { result ≡ and_at (width_of kind) v s }
{
    v & low_bits(kind, s)
}

pub fn ior(kind: u64, v: u64, s: u64) -> u64
    ensures { result ≡ ior_at (width_of kind) v s }
{
    v | low_bits(kind, s)
}

pub fn xor(kind: u64, v: u64, s: u64) -> u64
    ensures { result ≡ xor_at (width_of kind) v s }
{
    v ^ low_bits(kind, s)
}

fn shl_at(kind: u64, v: u64, n: u64) -> u64
    ensures { result ≡ shl_at (width_of kind) v n }
{
    if n < kind::width(kind) {
        return low_bits(kind, v << n);
    }
    0
}

fn shr_at(kind: u64, v: u64, n: u64) -> u64
    ensures { result ≡ shr_at (width_of kind) v n }
{
    if n < kind::width(kind) {
        return v >> n;
    }
    0
}

// A word with the top bit set is shifted as the complement of its complement, so that ones come in from the left.
fn ashr_at(kind: u64, v: u64, n: u64) -> u64
    ensures { result ≡ ashr_at (width_of kind) v n }
{
    let all = full(kind);
    let low = low_bits(kind, v);
    let left = all - low;
    if left < low {
        return all - shr_at(kind, left, n);
    }
    shr_at(kind, low, n)
}

// The shifted word, unless the count is negative.
fn unless_negative(count: u64, word: u64) -> Option<u64>
    ensures { result ≡ shifted (λ _. word) count }
{
    if integer::is_negative(count) {
        return None;
    }
    Some(word)
}

pub fn shl(kind: u64, v: u64, count: u64) -> Option<u64>
    ensures { result ≡ shift_left (width_of kind) v count }
{
    unless_negative(count, shl_at(kind, v, count))
}

pub fn shr(kind: u64, v: u64, count: u64) -> Option<u64>
    ensures { result ≡ shift_right (width_of kind) v count }
{
    unless_negative(count, shr_at(kind, v, count))
}

pub fn ashr(kind: u64, v: u64, count: u64) -> Option<u64>
    ensures { result ≡ shift_right_arithmetic (width_of kind) v count }
{
    unless_negative(count, ashr_at(kind, v, count))
}
