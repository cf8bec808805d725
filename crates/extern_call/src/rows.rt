// A whole CALL, resolved into a lent buffer: its resolved rows, or the rows of all its errors.
// Translated from quil-rs, instruction/extern_call.rs (Apache-2.0), and changed: see NOTICE.
ghost use Rattle.std.specs.Prelude.{◌≡◌, ◌+◌, ◌*◌, ◌≤◌, length};
ghost use Rattle.std.proofs.lemmas.List.Edits.{sets};
ghost use Rattle.call_argument.specs.Errors.{error_row};
ghost use Rattle.call_argument.specs.Resolved.{resolved_row};
ghost use Rattle.extern_call.specs.Call.{Counted, CallRanges};
ghost use Rattle.extern_call.specs.Inner.{Stored};
ghost use Rattle.extern_call.specs.Rows.{error_in, resolved_in, errors_of, resolved_arguments, error_width, resolved_width, resolving, resolve_call};

use crate::call::{ExternCall, all_resolve, expected_count, find_call, resolve_at};
use call_argument::error::{CallArgumentError, error_row};
use call_argument::resolved::{ResolvedCallArgument, resolved_row};
use tables::refusal::Refusal;
use tables::rows::Instruction;

// Words in a row of each kind.
pub const ERROR_WIDTH: usize = 7;

pub const RESOLVED_WIDTH: usize = 5;

// Why a CALL has no resolved rows: a refusal; or 8, with how many errors' rows were written.
#[derive(Clone, Copy, PartialEq, Eq, Debug)]
pub enum ResolveError {
    Refused(Refusal),
    Errors(usize),
}

impl From<Refusal> for ResolveError {
    ghost use Rattle.extern_call.specs.declared.rows.ResolveError.{ResolveError};

    ghost from_gives = { λ r e. e ≡ ResolveError.Refused r };

    fn from(refusal: Refusal) -> Self {
        ResolveError::Refused(refusal)
    }
}

// Stores a row after `count` of them. Its width is a constant, so that it is copied without a call of `memmove`, which the library does without.
fn store<const WIDTH: usize>(rows: &mut [u64], count: usize, row: &[u64; WIDTH])
    requires { count * WIDTH + WIDTH ≤ length rows.old }
    ensures { rows.new ≡ sets rows.old (count * WIDTH) row.now }
{
    let at = count * WIDTH;
    rows[at..at + WIDTH].copy_from_slice(row);
}

// An error's row, after `count` of them; how many there are then.
fn put_error(
    rows: &mut [u64],
    count: usize,
    r: Result<ResolvedCallArgument, CallArgumentError>,
) -> usize
    requires { count * error_width + error_width ≤ length rows.old }
    ensures { Stored error_row error_width count (error_in r) rows.old rows.new result }
{
    let Err(e) = r else {
        return count;
    };
    store(rows, count, &error_row(e));
    count + 1
}

// A resolved row, after `count` of them; how many there are then.
fn put_resolved(
    rows: &mut [u64],
    count: usize,
    r: Result<ResolvedCallArgument, CallArgumentError>,
) -> usize
    requires { count * resolved_width + resolved_width ≤ length rows.old }
    ensures { Stored resolved_row resolved_width count (resolved_in r) rows.old rows.new result }
{
    let Ok(a) = r else {
        return count;
    };
    store(rows, count, &resolved_row(a));
    count + 1
}

// The errors' rows, in order; how many.
fn write_errors(
    regions: &[u64],
    parameters: &[u64],
    arguments: &[u64],
    call: ExternCall,
    rows: &mut [u64],
) -> usize
    requires { Counted parameters.now arguments.now call × (error_width * call.argument_count ≤ length rows.old) }
    ensures { Stored error_row error_width 0 (errors_of regions.now parameters.now arguments.now call) rows.old rows.new result }
{
    let mut count = 0;
    for i in 0..call.argument_count {
        let r = resolve_at(regions, parameters, arguments, call, i);
        count = put_error(rows, count, r);
    }
    count
}

// The resolved rows, in order; how many. As `write_errors`, and not one function over a closure: its clause would name neither row, and speak of the closure's answer for each argument.
fn write_resolved(
    regions: &[u64],
    parameters: &[u64],
    arguments: &[u64],
    call: ExternCall,
    rows: &mut [u64],
) -> usize
    requires { Counted parameters.now arguments.now call × (error_width * call.argument_count ≤ length rows.old) }
    ensures { Stored resolved_row resolved_width 0 (resolved_arguments regions.now parameters.now arguments.now call) rows.old rows.new result }
{
    let mut count = 0;
    for i in 0..call.argument_count {
        let r = resolve_at(regions, parameters, arguments, call, i);
        count = put_resolved(rows, count, r);
    }
    count
}

// The CALL's resolved rows; else 6, 7, 4, or 8 with the rows of its errors.
pub fn resolve_call(
    regions: &[u64],
    externs: &[u64],
    parameters: &[u64],
    arguments: &[u64],
    x: Instruction,
    rows: &mut [u64],
) -> Result<usize, ResolveError>
    requires { CallRanges externs.now parameters.now arguments.now x }
    ensures { resolving result rows.new ≡ resolve_call regions.now externs.now parameters.now arguments.now x rows.old }
{
    let call = find_call(externs, x)?;
    if call.argument_count != expected_count(call) {
        return Err(ResolveError::Refused(Refusal::ArgumentCount));
    }
    if rows.len() < ERROR_WIDTH * call.argument_count {
        return Err(ResolveError::Refused(Refusal::BufferSize));
    }
    if all_resolve(regions, parameters, arguments, call) {
        return Ok(write_resolved(regions, parameters, arguments, call, rows));
    }
    Err(ResolveError::Errors(write_errors(regions, parameters, arguments, call, rows)))
}
