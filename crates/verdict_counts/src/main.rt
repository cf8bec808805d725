// The report of the chart of verdicts: how many forms are under each.
#![tactic(auto)]

fn main() {
    verdict_chart::report::report();
}
