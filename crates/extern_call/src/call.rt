// A CALL's arguments, each with its place in the extern's signature.
// Translated from quil-rs, instruction/extern_call.rs (Apache-2.0), and changed: see NOTICE.
ghost use Rattle.std.specs.Prelude.{◌≡◌, ◌+◌, ◌^◌, ◌<◌};
ghost use Rattle.extern_call.specs.Call.{find_call, expected_count, place_of, of_return, of_parameter, resolution_at, Paired, Counted, all_resolve, CallRanges, resolves_call};

use call_argument::error::{CallArgumentError, CallArgumentResolutionError};
use call_argument::resolve::{resolve_argument, resolve_return};
use call_argument::resolved::ResolvedCallArgument;
use tables::lookup::lookup_extern;
use tables::parameter_shape::NO_RETURN;
use tables::refusal::Refusal;
use tables::rows::{Instruction, argument_at, extern_at, parameter_at};

// A CALL with its extern's signature.
#[derive(Clone, Copy)]
pub struct ExternCall {
    pub return_kind: u64,
    pub first_parameter: usize,
    pub parameter_count: usize,
    pub first_argument: usize,
    pub argument_count: usize,
}

// Whose an argument is: the return's, or that parameter's.
#[derive(Drop)]
pub enum Place {
    Return,
    Parameter(usize),
}

// The CALL of an instruction's row, with the signature of its extern.
pub fn find_call(externs: &[u64], x: Instruction) -> Result<ExternCall, Refusal>
    ensures { result ≡ find_call externs.now x }
{
    let row = lookup_extern(externs, x.first_name).ok_or(Refusal::ExternNotFound)?;
    let signature = extern_at(externs, row);
    Ok(ExternCall {
        return_kind: signature.return_kind,
        first_parameter: signature.first_parameter as usize,
        parameter_count: signature.parameter_count as usize,
        first_argument: x.first_index as usize,
        argument_count: x.second_name as usize,
    })
}

// How many arguments the signature takes.
#[tactic(auto, unfolding(crate::specs::Call::expected_count))]
pub fn expected_count(call: ExternCall) -> usize
    requires { call.parameter_count + 1 < 2 ^ 64 }
    ensures { result ≡ expected_count call }
{
    if call.return_kind == NO_RETURN {
        return call.parameter_count;
    }
    call.parameter_count + 1
}

// Whose argument i is; a parameter's place does not count the return.
#[tactic(auto, unfolding(crate::specs::Call::place_of))]
pub fn place_of(call: ExternCall, i: usize) -> Place
    ensures { result ≡ place_of call i }
{
    if call.return_kind == NO_RETURN {
        return Place::Parameter(i);
    }
    if i == 0 {
        return Place::Return;
    }
    Place::Parameter(i - 1)
}

fn of_return(
    r: Result<ResolvedCallArgument, CallArgumentResolutionError>,
) -> Result<ResolvedCallArgument, CallArgumentError>
    ensures { result ≡ of_return r }
{
    r.map_err(CallArgumentError::Return)
}

fn of_parameter(
    index: usize,
    r: Result<ResolvedCallArgument, CallArgumentResolutionError>,
) -> Result<ResolvedCallArgument, CallArgumentError>
    ensures { result ≡ of_parameter index r }
{
    r.map_err(|error| CallArgumentError::Argument { index, error })
}

// Argument i of the CALL, resolved as the return or with its parameter.
pub fn resolve_at(
    regions: &[u64],
    parameters: &[u64],
    arguments: &[u64],
    call: ExternCall,
    i: usize,
) -> Result<ResolvedCallArgument, CallArgumentError>
    requires { Paired parameters.now arguments.now call i }
    ensures { result ≡ resolution_at regions.now parameters.now arguments.now call i }
{
    let row = argument_at(arguments, call.first_argument + i);
    let place = place_of(call, i);
    match place {
        Place::Return => of_return(resolve_return(regions, row, call.return_kind)),
        Place::Parameter(k) => {
            let p = parameter_at(parameters, call.first_parameter + k);
            of_parameter(k, resolve_argument(regions, row, p))
        }
    }
}

// Whether every argument of a CALL with the right count resolves.
pub fn all_resolve(regions: &[u64], parameters: &[u64], arguments: &[u64], call: ExternCall) -> bool
    requires { Counted parameters.now arguments.now call }
    ensures { result ≡ all_resolve regions.now parameters.now arguments.now call }
{
    (0..call.argument_count).all(|i| resolve_at(regions, parameters, arguments, call, i).is_ok())
}

// The CALL with its signature where all its arguments resolve; else 6, 7 or 8, the number only.
pub fn resolves(
    regions: &[u64],
    externs: &[u64],
    parameters: &[u64],
    arguments: &[u64],
    x: Instruction,
) -> Result<ExternCall, Refusal>
    requires { CallRanges externs.now parameters.now arguments.now x }
    ensures { result ≡ resolves_call regions.now externs.now parameters.now arguments.now x }
{
    let call = find_call(externs, x)?;
    if call.argument_count != expected_count(call) {
        return Err(Refusal::ArgumentCount);
    }
    if all_resolve(regions, parameters, arguments, call) {
        return Ok(call);
    }
    Err(Refusal::ArgumentErrors)
}
