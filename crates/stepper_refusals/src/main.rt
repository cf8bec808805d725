// The page of refusals, as the console shows it for `refusals` and the key p.
#![tactic(auto)]

fn main() {
    stepper_lines::page::page();
}
