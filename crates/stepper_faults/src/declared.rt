// The kind that a name is declared with.
use tables::lookup::lookup_region;
use tables::rows::region_at;

pub fn kind_of(regions: &[u64], name: u64) -> Option<u64> {
    let r = lookup_region(regions, name)?;
    Some(region_at(regions, r).kind)
}
