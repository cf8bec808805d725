// The chart of verdicts as text, as `./console chart` writes it.
#![tactic(auto)]

fn main() {
    verdict_chart::text::chart();
}
