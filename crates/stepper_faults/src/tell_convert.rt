// What is wrong with a CONVERT, after its row: a refusal 22.
use crate::fault::Conversion;
use crate::known::Names;
use stepper_lines::print::text;
use stepper_words::list::item;
use stepper_words::vocabulary::KINDS;

fn undeclared(names: Names, operand: &[u8], name: u64) {
    text(b":\n  the ");
    text(operand);
    text(b" (");
    names.show(name);
    text(b") is not declared");
}

fn other_kinds(from: u64, to: u64) {
    text(b":\n  from ");
    text(item(&KINDS, from));
    text(b" to ");
    text(item(&KINDS, to));
    text(b", where INTEGER to REAL or REAL to INTEGER is required");
}

pub fn tell_convert(names: Names, wrong: Conversion) {
    match wrong {
        Conversion::NoDestination(name) => undeclared(names, b"destination", name),
        Conversion::NoSource(name) => undeclared(names, b"source", name),
        Conversion::Kinds(from, to) => other_kinds(from, to),
        Conversion::ToReal | Conversion::ToInteger => {}
    }
}
