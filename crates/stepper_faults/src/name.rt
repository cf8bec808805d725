// Refusal 3: the first two regions, or else the first two externs, that have one name.
use crate::fault::Where;
use crate::program::Program;
use stepper_words::heading::Table;
use tables::lookup::{lookup_extern, lookup_region};

// The first row with one before it of its name, by what the library finds under a name.
fn find_in<F: Fn(u64) -> Option<usize>>(table: Table, words: &[u64], look_up: F) -> Option<Where>
    requires { F.IsAlwaysCallable look_up }
{
    for (row, name) in words.iter().step_by(table.width()).enumerate() {
        if let Some(earlier) = look_up(*name)
            && earlier < row
        {
            return Some(Where::SameName(table, *name, earlier, row));
        }
    }
    None
}

pub fn find_name(program: Program) -> Option<Where> {
    let regions = program.regions;
    let externs = program.externs;
    let in_regions = find_in(Table::Regions, regions, |name| lookup_region(regions, name));
    let in_externs = find_in(Table::Externs, externs, |name| lookup_extern(externs, name));
    in_regions.or(in_externs)
}
