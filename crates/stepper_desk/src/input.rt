// Lines from standard input.
use script::descriptor::STDIN_FILENO;
use script::line::part;
use stepper_lines::print::{byte, text};
use stepper_lines::view::View;

pub const LINE: usize = 256;

// A line's length, and whether it is the input's end. What a line has past the buffer is dropped.
#[derive(Drop)]
pub struct Typed {
    pub length: usize,
    pub ended: bool,
}

// The next byte, or nothing at the end.
fn read_byte(byte: &mut [u8; 1]) -> bool {
    io::read_full(STDIN_FILENO, byte) == 1
}

// Nothing says that a line ends, so no more bytes are read than this.
const MOST_BYTES: usize = 1_000_000;

fn read_line(line: &mut [u8; LINE]) -> Typed {
    let mut byte = [0; 1];
    for length in 0..MOST_BYTES {
        if !read_byte(&mut byte) {
            return Typed {
                length,
                ended: length == 0,
            };
        }
        if byte[0] == b'\n' {
            return Typed {
                length,
                ended: false,
            };
        }
        if let Some(place) = line.get_mut(length) {
            *place = byte[0];
        }
    }
    Typed {
        length: MOST_BYTES,
        ended: false,
    }
}

// The line that was typed.
pub fn typed_line(line: &[u8; LINE], typed: Typed) -> &[u8] {
    part(line, 0, typed.length)
}

// Asks for a line. Where no terminal echoes it, it is written after the prompt.
pub fn ask(prompt: &[u8], line: &mut [u8; LINE], view: View) -> Typed {
    text(prompt);
    let typed = read_line(line);
    if view.echo {
        text(part(line, 0, typed.length));
    }
    // A terminal echoes no end of the line where the input ends.
    if view.echo || typed.ended {
        byte(b'\n');
    }
    typed
}
