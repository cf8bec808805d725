// The console in a terminal: keys, one a line, and what each does. It only shows; the work is the public calls'.
#![tactic(auto)]

mod about;
mod explain;
mod keys;
mod run;
mod steps;
mod terminal;

fn main(rt: HostRuntime) {
    run::run(&rt, &rt.stdout(), &rt.stdin());
}
