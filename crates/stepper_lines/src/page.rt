// The page of refusals: number, cause, who can mend it, which calls give it, and an example.
use crate::print::{line, number, text};
use crate::refusal::{cause, mender};
use crate::type_error;
use tables::refusal::Refusal;

// All of them, in the order of their numbers.
const REFUSALS: [Refusal; 24] = [
    Refusal::TableShape,
    Refusal::WordNotAllowed,
    Refusal::NameTwice,
    Refusal::BufferSize,
    Refusal::TypeError,
    Refusal::ExternNotFound,
    Refusal::ArgumentCount,
    Refusal::ArgumentErrors,
    Refusal::OtherInstruction,
    Refusal::TooManyCells,
    Refusal::AtEnd,
    Refusal::NothingToTakeBack,
    Refusal::JournalFull,
    Refusal::IndexPastLength,
    Refusal::ZeroDivisor,
    Refusal::NegativeShiftCount,
    Refusal::UnfitReply,
    Refusal::NoRule,
    Refusal::ForeignPosition,
    Refusal::UnfitLabels,
    Refusal::ConditionNotBit,
    Refusal::UnfitConversion,
    Refusal::OutsideInteger,
    Refusal::UnfitLiteral,
];

// A line for each number; there is no refusal 0.
fn calls(refusal: Refusal) {
    line(
        b"\n\
        all calls\n\
        all calls\n\
        all calls but the walk\n\
        resolve, access, open, forward, run, back\n\
        check, frame (the chosen row), open, journal_length\n\
        resolve, access, open, journal_length, forward\n\
        resolve, open, journal_length, forward\n\
        resolve (with the error rows), open, journal_length, forward\n\
        open and journal_length (any row), forward (the current row)\n\
        open, journal_length, forward, run, back\n\
        forward\n\
        back\n\
        forward\n\
        forward\n\
        forward\n\
        forward\n\
        forward\n\
        forward\n\
        forward, run, back\n\
        open, journal_length, forward (each looks at all rows)\n\
        open, journal_length\n\
        open, journal_length\n\
        forward\n\
        forward (a MOVE or a STORE)",
        refusal.number(),
    );
}

fn type_errors() {
    text(b"- Type error 1, ");
    type_error::cause(1);
    for kind in 2..=4 {
        text(b"; ");
        number(kind);
        text(b", ");
        type_error::cause(kind);
    }
    text(
        b": `examples/type-error-1.tables` to `-4.tables`\n\
        - A frame's check ends at the first node that fails, and the console tells how many it looked at: `examples/frame-left.tables`\n\
        - What the type check says of every form of a row, frames apart: the chart, `docs/chart.html`, or `./console chart`\n",
    );
}

// Each kind of place, of type error and of argument error has an example of its own, each cause of 19 to 24, a frame's left operand, and a journal that is long enough.
fn more(refusal: Refusal) {
    match refusal {
        Refusal::TableShape => text(
            b"- A table over its limit: `examples/refusal-1-limit.tables`\n",
        ),
        Refusal::WordNotAllowed => text(
            b"- An unused word that is not 0: `examples/refusal-2-unused.tables`; a range outside its table: `-range.tables`; not exactly one tree: `-tree.tables`\n",
        ),
        Refusal::NameTwice => text(b"- Two externs: `examples/refusal-3-externs.tables`\n"),
        Refusal::TypeError => type_errors(),
        Refusal::ArgumentErrors => text(
            b"- Argument error 1, not declared; 2, another vector; 3, another kind of scalar; 4, no vector; 5, an immediate for the return; 6, an immediate for a mutable parameter: `examples/argument-error-1.tables` to `-6.tables`\n",
        ),
        Refusal::JournalFull => text(
            b"- With no foreign writer at work it does not come where no row is a jump and the journal is as long as journal_length says: `examples/journal-most.tables`, the longest that there is. Where that is more than 2,048 entries no journal is sure to be long enough: `examples/journal-long.tables`\n\
            - Nor is any where a row is a jump: a loop takes any number of steps, of at most 65 entries each: `examples/loop-endless.tables`\n",
        ),
        Refusal::ForeignPosition => text(
            b"- More steps than entries used: `examples/refusal-19-steps.tables`; a step's last entry with a row that is absent: `-left.tables`\n",
        ),
        Refusal::UnfitLabels => text(
            b"- A jump to a label on no row: `examples/refusal-20-target.tables`\n",
        ),
        Refusal::ConditionNotBit => text(
            b"- A condition that is not declared: `examples/refusal-21-undeclared.tables`\n",
        ),
        Refusal::UnfitConversion => text(
            b"- A destination that is not declared: `examples/refusal-22-undeclared.tables`; a source: `-undeclared-source.tables`\n",
        ),
        Refusal::OutsideInteger => text(
            b"- A NaN: `examples/refusal-23-nan.tables`; an infinity: `-infinity.tables`\n",
        ),
        Refusal::UnfitLiteral => text(
            b"- A STORE into a BIT: `examples/refusal-24-bit.tables`; a negative literal: `-negative.tables`\n",
        ),
        _ => {}
    }
}

fn refusal_entry(refusal: Refusal) {
    text(b"\n## ");
    number(refusal.number());
    text(b"\n\n- Cause: ");
    cause(refusal);
    text(b".\n- Mended by: ");
    text(mender(refusal));
    text(b".\n- Given by: ");
    calls(refusal);
    text(b".\n- Example: `examples/refusal-");
    number(refusal.number());
    text(b".tables`\n");
    more(refusal);
}

fn refusal_entries() {
    for refusal in REFUSALS {
        refusal_entry(refusal);
    }
}

fn intro() {
    text(
        b"# What is turned down, and why\n\n\
        A program, a key or a reply is turned down for one of twenty-four causes, and for no other. \
        A call looks for them in its order and gives the first; what it is lent stays as it was, but for what it tells: with 5 the type error, in frame also the nodes looked at, and in resolve with 8 the error rows. \
        A run that comes to a step which is refused stops before it: the number is then told in its answer, and the steps that it took stay. \
        Of 1, 2 and 3 the console names the table, and the row and the word or both rows; of 20 and 21 the row and the name, or both rows; of 22 the row and the name, or both kinds.\n\n\
        | call | looks for, in this order |\n\
        |---|---|\n\
        | check | 1, 2, 3, 5 |\n\
        | frame | 1, 2, 3, 5 |\n\
        | resolve | 1, 2, 3, 6, 7, 4, 8 |\n\
        | access | 1, 2, 3, 6, 4 |\n\
        | walk | 1, 2 |\n\
        | open | 1, 2, 3, 10, 4, 5, 9, 20, 21, 22, then 6, 7, 8 row by row |\n\
        | journal_length | 1, 2, 3, 10, 5, 9, 20, 21, 22, then 6, 7, 8 row by row |\n\
        | forward, a CALL | 1, 2, 3, 10, 4, 19, 11, 9, 20, 6, 7, 8, 14, 17, 13 |\n\
        | forward, any other row | 1, 2, 3, 10, 4, 19, 11, 9, 20, 17, 18 (names), 14 (written indices), 18 (the row's cells), 14 (an index from a cell), 18 (the cell reached), 24, 15, 16, 23, 13 |\n\
        | run | 1, 2, 3, 10, 4, 19; then, before each step, its allowance, the end, a CALL, and forward's from 9 on, which it tells as a stop |\n\
        | back | 1, 2, 3, 10, 4, 19 (position), 12, 19 (journal) |\n",
    );
}

pub fn page() {
    intro();
    refusal_entries();
}
