// What the programs read and write, by its number, as the kit's `io` takes it.
pub const STDIN_FILENO: i32 = 0;

pub const STDOUT_FILENO: i32 = 1;
