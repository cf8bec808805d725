// Plays the script on standard input through the C forms of the public calls, and writes what each answers and changes.
#![tactic(auto)]

mod call;
mod kept;
mod lent;
mod play;
mod print;
mod steps;

use script::descriptor::STDIN_FILENO;

fn main() {
    let mut text = [0; 1048576];
    let count = io::read_full(STDIN_FILENO, &mut text);
    play::play(&text[0..count]);
}
