// Writes the wall chart's verdicts, worked out form by form from the check of a row: 610 digits and a line feed.
#![tactic(auto)]

mod regions;
mod row;
mod verdict;

use script::descriptor::STDOUT_FILENO;

fn main() {
    for place in 0..verdict_table::table::FORMS {
        io::print_decimal(STDOUT_FILENO, verdict::verdict(place));
    }
    io::write_all(STDOUT_FILENO, b"\n");
}
