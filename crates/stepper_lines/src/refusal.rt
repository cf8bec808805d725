// Refusals by number and cause.
use crate::print::{byte, line, number, style, text};
use crate::view::View;
use tables::refusal::Refusal;

// A line for each number; there is no refusal 0.
pub fn cause(refusal: Refusal) {
    line(
        b"\n\
        a table is not whole rows, or has more rows than its limit\n\
        a word is not allowed where it stands, a range lies outside its table or is not exactly one tree, or the chosen row is absent or of another family\n\
        two regions or two externs have one name\n\
        a lent buffer is too short, or the journal is not whole entries or too long\n\
        the program has a type error\n\
        a CALL names an extern that is not declared\n\
        a CALL has more or fewer arguments than its extern takes\n\
        arguments of a CALL do not fit their parameters\n\
        an instruction is none that the console steps\n\
        the regions have more than 4,096 cells\n\
        the program is at its end\n\
        there is no step to take back\n\
        the journal is full: the step's changes and one entry more do not fit\n\
        an index is negative, or at or past the length of its region\n\
        an INTEGER is divided by zero\n\
        a shift count is negative\n\
        the reply does not fit the CALL, or there is one and the row is no CALL\n\
        a cell that is read has no rule: its kind or its word is foreign; or a name is not declared\n\
        the position lies past its tables or has more steps than entries, or the journal cannot be read\n\
        a label stands on two LABEL rows, or a jump goes to a label that stands on none\n\
        the condition of a jump is not declared, or not BIT\n\
        a CONVERT is not between INTEGER and REAL, or one of its names is not declared\n\
        a REAL to convert is a NaN, an infinity, or outside -2^63 to 2^63-1 after its fraction is dropped\n\
        an integer literal is outside its target's kind: 0 to 1 for a BIT, 0 to 255 for an OCTET",
        refusal.number(),
    );
}

// Who can mend it.
pub fn mender(refusal: Refusal) -> &'static [u8] {
    match refusal {
        Refusal::TableShape | Refusal::WordNotAllowed | Refusal::NameTwice | Refusal::BufferSize =>
            b"the loader",
        Refusal::AtEnd | Refusal::NothingToTakeBack | Refusal::JournalFull => b"the student",
        Refusal::IndexPastLength
        | Refusal::ZeroDivisor
        | Refusal::NegativeShiftCount
        | Refusal::OutsideInteger => b"the running program",
        Refusal::UnfitReply => b"the extern routine",
        Refusal::NoRule | Refusal::ForeignPosition => b"the foreign writer",
        _ => b"the program's author",
    }
}

pub fn refused(refusal: Refusal, view: View) {
    style(view, b"31");
    text(b"refused ");
    number(refusal.number());
    text(b": ");
    cause(refusal);
    text(b" (for ");
    text(mender(refusal));
    text(b" to mend)");
    style(view, b"0");
    byte(b'\n');
}
