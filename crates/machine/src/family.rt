// What a row of each family does, from its operands' cells on.
ghost use Rattle.std.specs.Prelude.{◌≡◌};
ghost use Rattle.machine.specs.Families.{put_integer, put_into, arithmetic_of, comparison_of, logic_of, unary_of, move_of, exchange_of, load_of, store_of, convert_of, conditional_of, family_of};
ghost use Rattle.machine.specs.Outcome.{row_outcome};
ghost use Rattle.operands.specs.Reach.{There};
ghost use Rattle.machine.specs.Reach.{TargetAndSource, Compared, Exchanged, Loading, Storing, Placed};

use crate::outcome::Writes;
use journal::cells::{CELL_WIDTH, Write};
use operands::address::{Addresses, NamedRegions, index_cell};
use operands::cell::{Value, read_as, read_cell, read_source};
use operators::convert::{convert_kinds, convert_result, converted_kind};
use tables::family;
use tables::refusal::Refusal;
use tables::rows::Instruction;
use words::kind;

// An integer literal put into cell c, which has that kind. A negative literal's word is no word of BIT or OCTET.
fn put_integer(c: usize, kind: u64, word: u64) -> Result<Writes, Refusal>
    ensures { row_outcome result ≡ put_integer c kind word }
{
    if kind >= kind::REAL {
        return Err(Refusal::NoRule);
    }
    if !kind::fits(kind, word) {
        return Err(Refusal::UnfitLiteral);
    }
    Ok(Writes::One(Write {
        cell: c,
        kind,
        word,
    }))
}

// The source put into cell c. A literal's target is read for its kind alone; a reference is copied.
fn put_into(cells: &[u64], c: usize, s: Value) -> Result<Writes, Refusal>
    requires { There cells.now c }
    ensures { row_outcome result ≡ put_into cells.now c s }
{
    let word = s.word;
    let code = s.kind;
    let kind = cells[CELL_WIDTH * c];
    match code {
        kind::INTEGER_LITERAL => put_integer(c, kind, word),
        kind::REAL_LITERAL => {
            if kind == kind::REAL {
                return Ok(Writes::One(Write {
                    cell: c,
                    kind: kind::REAL,
                    word,
                }));
            }
            Err(Refusal::NoRule)
        }
        _ => Ok(Writes::One(Write {
            cell: c,
            kind: code,
            word,
        })),
    }
}

pub fn arithmetic(cells: &[u64], x: Instruction, a: Addresses) -> Result<Writes, Refusal>
    requires { TargetAndSource cells.now x a }
    ensures { row_outcome result ≡ arithmetic_of cells.now x a }
{
    let d = read_cell(cells, a.first)?;
    let s = read_source(cells, x, a.source)?;
    if !operators::arithmetic_kinds(d.kind, s.kind) {
        return Err(Refusal::NoRule);
    }
    let word = operators::arithmetic_result(x.operator, d.kind, d.word, s.word)?;
    Ok(Writes::One(Write {
        cell: a.first,
        kind: d.kind,
        word,
    }))
}

pub fn comparison(cells: &[u64], x: Instruction, a: Addresses) -> Result<Writes, Refusal>
    requires { Compared cells.now x a }
    ensures { row_outcome result ≡ comparison_of cells.now x a }
{
    let l = read_cell(cells, a.second)?;
    let s = read_source(cells, x, a.source)?;
    if !operators::comparison_kinds(l.kind, s.kind) {
        return Err(Refusal::NoRule);
    }
    Ok(Writes::One(Write {
        cell: a.first,
        kind: kind::BIT,
        word: operators::comparison_result(x.operator, l.kind, l.word, s.word),
    }))
}

pub fn logic(cells: &[u64], x: Instruction, a: Addresses) -> Result<Writes, Refusal>
    requires { TargetAndSource cells.now x a }
    ensures { row_outcome result ≡ logic_of cells.now x a }
{
    let d = read_cell(cells, a.first)?;
    let s = read_source(cells, x, a.source)?;
    if !operators::logic_kinds(d.kind, s.kind) {
        return Err(Refusal::NoRule);
    }
    let word = operators::logic_result(x.operator, d.kind, d.word, s.word)?;
    Ok(Writes::One(Write {
        cell: a.first,
        kind: d.kind,
        word,
    }))
}

fn unary(cells: &[u64], x: Instruction, a: Addresses) -> Result<Writes, Refusal>
    requires { There cells.now a.first }
    ensures { row_outcome result ≡ unary_of cells.now x a }
{
    let d = read_cell(cells, a.first)?;
    if !operators::unary_kinds(x.operator, d.kind) {
        return Err(Refusal::NoRule);
    }
    Ok(Writes::One(Write {
        cell: a.first,
        kind: d.kind,
        word: operators::unary_result(x.operator, d.kind, d.word),
    }))
}

fn move_source(cells: &[u64], x: Instruction, a: Addresses) -> Result<Writes, Refusal>
    requires { TargetAndSource cells.now x a }
    ensures { row_outcome result ≡ move_of cells.now x a }
{
    let s = read_source(cells, x, a.source)?;
    put_into(cells, a.first, s)
}

pub fn exchange(cells: &[u64], a: Addresses) -> Result<Writes, Refusal>
    requires { Exchanged cells.now a }
    ensures { row_outcome result ≡ exchange_of cells.now a }
{
    let d = read_cell(cells, a.first)?;
    let e = read_cell(cells, a.second)?;
    Ok(Writes::Two(
        Write {
            cell: a.first,
            kind: e.kind,
            word: e.word,
        },
        Write {
            cell: a.second,
            kind: d.kind,
            word: d.word,
        },
    ))
}

pub fn load(
    regions: &[u64],
    cells: &[u64],
    n: NamedRegions,
    a: Addresses,
) -> Result<Writes, Refusal>
    requires { Loading regions.now cells.now n a }
    ensures { row_outcome result ≡ load_of regions.now cells.now n a }
{
    let i = read_as(cells, a.source, kind::INTEGER)?;
    let c = index_cell(regions, n.second, i)?;
    let v = read_cell(cells, c)?;
    Ok(Writes::One(Write {
        cell: a.first,
        kind: v.kind,
        word: v.word,
    }))
}

pub fn store(
    regions: &[u64],
    cells: &[u64],
    x: Instruction,
    n: NamedRegions,
    a: Addresses,
) -> Result<Writes, Refusal>
    requires { Storing regions.now cells.now x n a }
    ensures { row_outcome result ≡ store_of regions.now cells.now x n a }
{
    let i = read_as(cells, a.second, kind::INTEGER)?;
    let s = read_source(cells, x, a.source)?;
    let c = index_cell(regions, n.first, i)?;
    put_into(cells, c, s)
}

// The source's cell picks the direction; the destination is only overwritten.
fn convert(cells: &[u64], a: Addresses) -> Result<Writes, Refusal>
    requires { There cells.now a.source }
    ensures { row_outcome result ≡ convert_of cells.now a }
{
    let s = read_cell(cells, a.source)?;
    if !convert_kinds(s.kind) {
        return Err(Refusal::NoRule);
    }
    let word = convert_result(s.kind, s.word)?;
    Ok(Writes::One(Write {
        cell: a.first,
        kind: converted_kind(s.kind),
        word,
    }))
}

// A jump with a condition, which is read for its kind: it changes nothing.
fn conditional(cells: &[u64], a: Addresses) -> Result<Writes, Refusal>
    requires { There cells.now a.first }
    ensures { row_outcome result ≡ conditional_of cells.now a }
{
    read_as(cells, a.first, kind::BIT)?;
    Ok(Writes::Nothing)
}

// By the family. Frame rows, NOP, JUMP, LABEL and HALT change nothing.
#[tactic(auto, unfolding(crate::specs::Families::family_of, tables::specs::Cases::case_of))]
pub fn family_outcome(
    regions: &[u64],
    cells: &[u64],
    x: Instruction,
    n: NamedRegions,
    a: Addresses,
) -> Result<Writes, Refusal>
    requires { Placed regions.now cells.now x n a }
    ensures { row_outcome result ≡ family_of regions.now cells.now x n a }
{
    let family = x.family;
    match family {
        family::ARITHMETIC => arithmetic(cells, x, a),
        family::COMPARISON => comparison(cells, x, a),
        family::BINARY_LOGIC => logic(cells, x, a),
        family::UNARY => unary(cells, x, a),
        family::MOVE => move_source(cells, x, a),
        family::EXCHANGE => exchange(cells, a),
        family::LOAD => load(regions, cells, n, a),
        family::STORE => store(regions, cells, x, n, a),
        family::JUMP_WHEN | family::JUMP_UNLESS => conditional(cells, a),
        family::CONVERT => convert(cells, a),
        _ => Ok(Writes::Nothing),
    }
}
