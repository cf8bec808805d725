// Where a row's operands lie: the regions that it names, then the cells at its written indices.
ghost use Rattle.std.specs.Prelude.{◌≡◌, true, ◌<◌};
ghost use Rattle.tables.specs.Rows.{region_rows};
ghost use Rattle.tables.specs.Cells.{origin};
ghost use Rattle.operands.specs.Address.{index_fits, indexed_of, named_of, names_of, written_of, addresses_of};
ghost use Rattle.operands.specs.Reach.{Laid, Named};

use crate::names::{indexes_first, indexes_second, names_first, names_second};
use tables::cells::cells_in;
use tables::lookup::lookup_region;
use tables::refusal::Refusal;
use tables::rows::{Instruction, region_at};
use tables::source;
use words::integer;

// The regions that a row names; 0 for an operand that is no name.
#[derive(Clone, Copy)]
pub struct NamedRegions {
    pub first: usize,
    pub second: usize,
    pub source: usize,
}

// The cells at a row's written indices; 0 for an operand that has none.
#[derive(Drop)]
pub struct Addresses {
    pub first: usize,
    pub second: usize,
    pub source: usize,
}

// The cell of a region's index 0: as many as the regions before it add.
pub fn region_origin(regions: &[u64], r: usize) -> usize
    requires { (r < region_rows regions.now) × Laid regions.now }
    ensures { result ≡ origin regions.now r }
{
    let mut c: usize = 0;
    for i in 0..r {
        c += cells_in(regions, i);
    }
    c
}

#[tactic(auto, unfolding(crate::specs::Address::index_fits))]
pub fn index_fits(regions: &[u64], r: usize, i: u64) -> bool
    requires { r < region_rows regions.now }
    ensures { result ≡ index_fits regions.now r i }
{
    let region = region_at(regions, r);
    !integer::is_negative(i) & (i < region.length)
}

pub fn index_cell(regions: &[u64], r: usize, i: u64) -> Result<usize, Refusal>
    requires { (r < region_rows regions.now) × Laid regions.now }
    ensures { result ≡ indexed_of regions.now r i }
{
    if index_fits(regions, r, i) {
        return Ok(region_origin(regions, r) + i as usize);
    }
    Err(Refusal::IndexPastLength)
}

// The region of a name that is used.
#[tactic(auto, unfolding(crate::specs::Address::named_of))]
fn named_region(regions: &[u64], used: bool, name: u64) -> Result<usize, Refusal>
    ensures { result ≡ named_of regions.now used name }
{
    if used {
        return lookup_region(regions, name).ok_or(Refusal::NoRule);
    }
    Ok(0)
}

// Every name that a row uses.
pub fn named_regions(regions: &[u64], x: Instruction) -> Result<NamedRegions, Refusal>
    ensures { result ≡ names_of regions.now x }
{
    let family = x.family;
    let first = named_region(regions, names_first(family), x.first_name)?;
    let second = named_region(regions, names_second(family), x.second_name)?;
    let source = named_region(regions, x.source_form == source::REFERENCE, x.source_first)?;
    Ok(NamedRegions {
        first,
        second,
        source,
    })
}

// The cell of an index that is written.
#[tactic(auto, unfolding(crate::specs::Address::written_of))]
fn written_cell(regions: &[u64], written: bool, r: usize, i: u64) -> Result<usize, Refusal>
    requires { (written ≡ true → r < region_rows regions.now) × Laid regions.now }
    ensures { result ≡ written_of regions.now written r i }
{
    if written {
        return index_cell(regions, r, i);
    }
    Ok(0)
}

// Every index that a row writes.
pub fn written_addresses(
    regions: &[u64],
    x: Instruction,
    n: NamedRegions,
) -> Result<Addresses, Refusal>
    requires { Named regions.now x n }
    ensures { result ≡ addresses_of regions.now x n }
{
    let family = x.family;
    let first = written_cell(regions, indexes_first(family), n.first, x.first_index)?;
    let second = written_cell(regions, indexes_second(family), n.second, x.second_index)?;
    let source = written_cell(
        regions,
        x.source_form == source::REFERENCE,
        n.source,
        x.source_second,
    )?;
    Ok(Addresses {
        first,
        second,
        source,
    })
}
