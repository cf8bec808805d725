// The operands that a row reads: cells and literals.
ghost use Rattle.std.specs.Prelude.{◌≡◌};
ghost use Rattle.operands.specs.Cells.{read_of, source_of, read_word};
ghost use Rattle.operands.specs.Reach.{There, SourceThere};

use journal::cells::CELL_WIDTH;
use tables::refusal::Refusal;
use tables::rows::Instruction;
use tables::source;
use words::kind;

// A cell's kind and word, or a literal's word with its code for the kind.
#[derive(Drop)]
pub struct Value {
    pub kind: u64,
    pub word: u64,
}

// A cell that is read: a kind above 3 or a word beyond its kind has no rule.
pub fn read_cell(cells: &[u64], c: usize) -> Result<Value, Refusal>
    requires { There cells.now c }
    ensures { result ≡ read_of cells.now c }
{
    let at = CELL_WIDTH * c;
    let kind = cells[at];
    let word = cells[at + 1];
    if kind::fits(kind, word) {
        return Ok(Value { kind, word });
    }
    Err(Refusal::NoRule)
}

// A row's source: a literal, or the cell c.
#[tactic(auto, unfolding(crate::specs::Cells::source_of, tables::specs::Cases::case_of))]
pub fn read_source(cells: &[u64], x: Instruction, c: usize) -> Result<Value, Refusal>
    requires { SourceThere cells.now x c }
    ensures { result ≡ source_of cells.now x c }
{
    let form = x.source_form;
    let word = x.source_first;
    match form {
        source::INTEGER_LITERAL => Ok(Value {
            kind: kind::INTEGER_LITERAL,
            word,
        }),
        source::REAL_LITERAL => Ok(Value {
            kind: kind::REAL_LITERAL,
            word,
        }),
        source::REFERENCE => read_cell(cells, c),
        _ => Err(Refusal::NoRule),
    }
}

// The word of a cell that has a rule as one kind alone: an offset INTEGER, a condition BIT.
pub fn read_as(cells: &[u64], c: usize, kind: u64) -> Result<u64, Refusal>
    requires { There cells.now c }
    ensures { result ≡ read_word kind cells.now c }
{
    let v = read_cell(cells, c)?;
    if v.kind != kind {
        return Err(Refusal::NoRule);
    }
    Ok(v.word)
}
