// The access sets of a CALL, ascending, in lent lists.
// Translated from quil-rs, instruction/extern_call.rs (Apache-2.0), and changed: see NOTICE.
ghost use Rattle.std.specs.Prelude.{◌≡◌, ◌+◌, ◌^◌, ◌≤◌, ◌<◌, ◌∷◌, length, take, drop};
ghost use Rattle.std.proofs.lemmas.List.Edits.{sets};
ghost use Rattle.tables.specs.Rows.{parameter_rows};
ghost use Rattle.extern_call.specs.Call.{expected_count, Ranges, Paired, CallRanges};
ghost use Rattle.access_sets.specs.Set.{inserted, insert_all, Ascending};
ghost use Rattle.access_sets.specs.Inner.{Listed};
ghost use Rattle.access_sets.specs.Access.{names_in, written_at, listed_at, names_at, paired_count, access_of, accessing, access_call};

use call_argument::argument::{UnresolvedCallArgument, decode};
use extern_call::call::{ExternCall, Place, expected_count, find_call, place_of};
use tables::refusal::Refusal;
use tables::rows::{Argument, Instruction, argument_at, parameter_at};

// Which of the two sets.
#[derive(Clone, Copy)]
pub enum Access {
    Read,
    Write,
}

// Puts a name at its place among the first `count`; those from there on go up by one. A loop, since `copy_within` would call a `memmove`, which the library does without.
fn put_at(names: &mut [u64], count: usize, place: usize, name: u64)
    requires { (place ≤ count) × (count < length names.old) }
    ensures { names.new ≡ sets names.old place (name ∷ drop place (take count names.old)) }
{
    for i in (place..count).rev() {
        names[i + 1] = names[i];
    }
    names[place] = name;
}

// A name among the first `count`, which ascend. The new count.
fn insert(names: &mut [u64], count: usize, name: u64) -> usize
    requires { (count < length names.old) × Ascending (take count names.old) }
    ensures { Listed (inserted name (take count names.old)) names.old names.new result }
{
    match names[..count].binary_search(&name) {
        Ok(_) => count,
        Err(place) => {
            put_at(names, count, place, name);
            count + 1
        }
    }
}

// The name of an identifier or a reference. The new count.
fn insert_name(names: &mut [u64], count: usize, row: Argument) -> usize
    requires { (count < length names.old) × Ascending (take count names.old) }
    ensures { Listed (insert_all (take count names.old) (names_in row)) names.old names.new result }
{
    let argument = decode(row);
    match argument {
        UnresolvedCallArgument::Identifier(name) => insert(names, count, name),
        UnresolvedCallArgument::Reference(name, _) => insert(names, count, name),
        UnresolvedCallArgument::Immediate(_, _) => count,
    }
}

// Whether argument i is the return's or a mutable parameter's.
#[tactic(auto, unfolding(crate::specs::Access::written_at))]
fn is_written(parameters: &[u64], call: ExternCall, i: usize) -> bool
    requires { (call.first_parameter + call.parameter_count ≤ parameter_rows parameters.now) × (i < expected_count call) }
    ensures { result ≡ written_at parameters.now call i }
{
    let place = place_of(call, i);
    match place {
        Place::Return => true,
        Place::Parameter(k) => {
            let p = parameter_at(parameters, call.first_parameter + k);
            p.mutable != 0
        }
    }
}

// Whether argument i is listed in that set.
fn is_listed(parameters: &[u64], call: ExternCall, i: usize, access: Access) -> bool
    requires { (call.first_parameter + call.parameter_count ≤ parameter_rows parameters.now) × (i < expected_count call) }
    ensures { result ≡ listed_at parameters.now call access i }
{
    match access {
        Access::Read => true,
        Access::Write => is_written(parameters, call, i),
    }
}

// Argument i's name, where it is listed. The new count.
fn visit(
    parameters: &[u64],
    arguments: &[u64],
    call: ExternCall,
    i: usize,
    access: Access,
    names: &mut [u64],
    count: usize,
) -> usize
    requires { Paired parameters.now arguments.now call i × (count < length names.old) × Ascending (take count names.old) }
    ensures { Listed (insert_all (take count names.old) (names_at parameters.now arguments.now call access i)) names.old names.new result }
{
    if is_listed(parameters, call, i, access) {
        let row = argument_at(arguments, call.first_argument + i);
        return insert_name(names, count, row);
    }
    count
}

// How many arguments are the return's or a parameter's.
#[tactic(auto, unfolding(crate::specs::Access::paired_count))]
fn paired_count(call: ExternCall) -> usize
    requires { call.parameter_count + 1 < 2 ^ 64 }
    ensures { result ≡ paired_count call }
{
    call.argument_count.min(expected_count(call))
}

// The names of one set, ascending; how many.
fn collect(
    parameters: &[u64],
    arguments: &[u64],
    call: ExternCall,
    access: Access,
    names: &mut [u64],
) -> usize
    requires { Ranges parameters.now arguments.now call × (call.argument_count ≤ length names.old) }
    ensures { Listed (access_of parameters.now arguments.now call access) names.old names.new result }
{
    let mut count = 0;
    for i in 0..paired_count(call) {
        count = visit(parameters, arguments, call, i, access, names, count);
    }
    count
}

// The CALL's read and write sets, and how many names each has; else 6 or 4.
pub fn access_call(
    externs: &[u64],
    parameters: &[u64],
    arguments: &[u64],
    x: Instruction,
    reads: &mut [u64],
    writes: &mut [u64],
) -> Result<(usize, usize), Refusal>
    requires { CallRanges externs.now parameters.now arguments.now x }
    ensures { accessing result reads.new writes.new ≡ access_call externs.now parameters.now arguments.now x reads.old writes.old }
{
    let call = find_call(externs, x)?;
    if reads.len() < call.argument_count {
        return Err(Refusal::BufferSize);
    }
    if writes.len() < call.argument_count {
        return Err(Refusal::BufferSize);
    }
    let read = collect(parameters, arguments, call, Access::Read, reads);
    let written = collect(parameters, arguments, call, Access::Write, writes);
    Ok((read, written))
}
