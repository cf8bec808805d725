// What is wrong with a jump, after its row: a refusal 20 or 21.
use crate::fault::Jump;
use crate::known::Names;
use stepper_lines::print::{byte, text};
use stepper_words::list::item;
use stepper_words::vocabulary::KINDS;

fn condition(names: Names, name: u64) {
    text(b":\n  the condition (");
    names.show(name);
    text(b") is ");
}

pub fn tell_jump(names: Names, wrong: Jump) {
    match wrong {
        Jump::NoTarget(label) => {
            text(b":\n  no LABEL row has its label (@");
            names.show(label);
            byte(b')')
        }
        Jump::Undeclared(name) => {
            condition(names, name);
            text(b"not declared")
        }
        Jump::NotBit(name, kind) => {
            condition(names, name);
            text(item(&KINDS, kind));
            text(b", where BIT is required")
        }
    }
}
