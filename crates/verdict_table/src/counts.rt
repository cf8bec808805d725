// How many forms are under a verdict.
ghost use Rattle.std.specs.Prelude.{◌≡◌, ◌+◌, ◌≤◌};
ghost use Rattle.verdict_table.specs.Chart.{form_count, count_from};

use crate::table::verdict_at;

// Of the `size` forms from `start` on.
pub fn forms_under(verdict: u8, start: usize, size: usize) -> usize
    requires { start + size ≤ form_count }
    ensures { result ≡ count_from verdict start size }
{
    (start..start + size)
        .filter(|&place| verdict_at(place) == verdict)
        .count()
}
