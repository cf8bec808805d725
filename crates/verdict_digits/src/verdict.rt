// The verdict on a form, by the check of a row.
ghost use Rattle.std.specs.Prelude.{◌≡◌, ◌<◌, get_or};
ghost use Rattle.verdict_table.specs.Chart.{form_count, chart};

use crate::regions::REGIONS;
use crate::row::row_at;
use type_check::program::check_row;

// 0 for accepted, or the type error's kind: the table's entry at this place, without a look at the table.
pub fn verdict(place: usize) -> u64
    requires { place < form_count }
    ensures { result ≡ get_or chart place 0 }
{
    match check_row(&REGIONS, &[], 0, row_at(place)) {
        Ok(()) => 0,
        Err(error) => error.kind,
    }
}
