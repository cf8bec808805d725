// The chart of verdicts as a page, as `./console chart html` writes it.
#![tactic(auto)]

fn main() {
    verdict_chart::page::page();
}
