// Lookup of a row by its name, the row's first word.
#![tactic(auto, unfolding(crate::specs::Lookup::lookup_of, crate::specs::Marks::mark_of))]

ghost use Rattle.std.specs.Prelude.{◌≡◌, ◌||◌, ◌<◌, ◌≤◌, ◌+◌, ◌-◌, ◌*◌, ◌%◌, eqb, length};
ghost use Rattle.std.specs.Option.{is_some};
ghost use Rattle.tables.specs.Lookup.{name_at, lookup_from, lookup_among, lookup_of, lookup_region, lookup_extern, distinct};
ghost use Rattle.tables.specs.Marks.{mark_of, Marked};

use crate::rows::{EXTERN_WIDTH, REGION_WIDTH};

// How many marks there are: a prime, so that names at equal steps have different ones.
const MARKS: u64 = 251;

// Whether row i has that name.
fn has_name(table: &[u64], width: usize, i: usize, name: u64) -> bool
    requires { (0 < width) × (i * width < length table.now) }
    ensures { result ≡ eqb (name_at width table.now i) name }
{
    table[i * width] == name
}

// Whether one of the four rows from row i on has that name.
fn four_have_name(table: &[u64], width: usize, i: usize, name: u64) -> bool
    requires { (0 < width) × ((i + 3) * width < length table.now) }
    ensures { result ≡ (eqb (name_at width table.now i) name || (eqb (name_at width table.now (i + 1)) name || (eqb (name_at width table.now (i + 2)) name || eqb (name_at width table.now (i + 3)) name))) }
{
    has_name(table, width, i, name)
        | (has_name(table, width, i + 1, name)
            | (has_name(table, width, i + 2, name) | has_name(table, width, i + 3, name)))
}

// How many rows can be passed, four at a time for speed: none of them has that name.
fn pass_fours(table: &[u64], width: usize, rows: usize, name: u64) -> usize
    requires { (0 < width) × (rows * width ≤ length table.now) }
    ensures { (result ≤ rows) × (lookup_from width table.now name result (rows - result) ≡ lookup_among width table.now name rows) }
{
    let fours = rows / 4;
    for four in 0..fours {
        if four_have_name(table, width, 4 * four, name) {
            return 4 * four;
        }
    }
    4 * fours
}

// The first of the first `rows` rows with that name.
fn lookup_among(table: &[u64], width: usize, rows: usize, name: u64) -> Option<usize>
    requires { (0 < width) × (rows * width ≤ length table.now) }
    ensures { result ≡ lookup_among width table.now name rows }
{
    let passed = pass_fours(table, width, rows, name);
    for i in passed..rows {
        if has_name(table, width, i, name) {
            return Some(i);
        }
    }
    None
}

pub fn lookup_region(regions: &[u64], name: u64) -> Option<usize>
    ensures { result ≡ lookup_region regions.now name }
{
    let rows = regions.len() / REGION_WIDTH;
    lookup_among(regions, REGION_WIDTH, rows, name)
}

pub fn lookup_extern(externs: &[u64], name: u64) -> Option<usize>
    ensures { result ≡ lookup_extern externs.now name }
{
    let rows = externs.len() / EXTERN_WIDTH;
    lookup_among(externs, EXTERN_WIDTH, rows, name)
}

// A name's mark: equal names have one mark, and few others share it.
fn mark(name: u64) -> usize
    ensures { result ≡ mark_of name }
{
    (name % MARKS) as usize
}

// Whether an earlier row has row i's name. They are looked through only where one of them has its mark.
fn named_before(table: &[u64], width: usize, marks: &[bool], i: usize) -> bool
    requires { (0 < width) × (i * width < length table.now) × Marked width table.now marks.now i }
    ensures { result ≡ is_some (lookup_among width table.now (name_at width table.now i) i) }
{
    let name = table[i * width];
    marks[mark(name)] && lookup_among(table, width, i, name).is_some()
}

// Whether no two rows have one name: no row has the name of an earlier one.
pub fn distinct_names(table: &[u64], width: usize) -> bool
    requires { 0 < width }
    ensures { result ≡ distinct width table.now }
{
    let rows = table.len() / width;
    let mut marks = [false; MARKS as usize];
    for i in 0..rows {
        if named_before(table, width, &marks, i) {
            return false;
        }
        marks[mark(table[i * width])] = true;
    }
    true
}
