// A CALL: the whole reply is judged, then each of its rows gives a write.
ghost use Rattle.std.specs.Prelude.{◌≡◌, true, false};
ghost use Rattle.tables.specs.Lookup.{lookup_region};
ghost use Rattle.operands.specs.Reach.{Laid};
ghost use Rattle.extern_call.specs.Call.{resolution_at, CallRanges, Counted, Paired};
ghost use Rattle.call_reply.specs.Call.{index_found, scalar_fits, hits, cell_found, cell_hit, of_resolved, scalars_fit, reply_row_fits, reply_fits, reply_write, call_ready, call_judged};
ghost use Rattle.call_reply.specs.Reach.{FoundWithin, CellWithin, Hit, Judging, Replied};

use crate::reply::{REPLY_WIDTH, Reply, hits_argument, reply_at, reply_length_fits};
use call_argument::error::CallArgumentError;
use call_argument::resolved::ResolvedCallArgument;
use extern_call::call::{ExternCall, resolve_at, resolves};
use journal::cells::Write;
use operands::address::{index_fits, region_origin};
use tables::lookup::lookup_region;
use tables::refusal::Refusal;
use tables::rows::Instruction;

fn named_index_fits(regions: &[u64], name: u64, index: u64) -> bool
    ensures { result ≡ index_found regions.now index (lookup_region regions.now name) }
{
    let Some(r) = lookup_region(regions, name) else {
        return false;
    };
    index_fits(regions, r, index)
}

fn scalar_fits(regions: &[u64], a: ResolvedCallArgument) -> bool
    ensures { result ≡ scalar_fits regions.now a }
{
    match a {
        ResolvedCallArgument::MemoryReference { name, index, .. } => {
            named_index_fits(regions, name, index)
        }
        ResolvedCallArgument::Vector { .. } | ResolvedCallArgument::Immediate { .. } => true,
    }
}

#[tactic(auto, unfolding(operands::specs::Address::address_of))]
fn named_cell(regions: &[u64], name: u64, i: u64) -> usize
    requires { Laid regions.now × FoundWithin regions.now i (lookup_region regions.now name) }
    ensures { result ≡ cell_found regions.now i (lookup_region regions.now name) }
{
    let Some(r) = lookup_region(regions, name) else {
        return 0;
    };
    region_origin(regions, r) + i as usize
}

fn argument_cell(regions: &[u64], a: ResolvedCallArgument, offset: u64) -> usize
    requires { Laid regions.now × CellWithin regions.now offset a }
    ensures { result ≡ cell_hit regions.now offset a }
{
    match a {
        ResolvedCallArgument::Vector { name, .. } => named_cell(regions, name, offset),
        ResolvedCallArgument::MemoryReference { name, index, .. } => {
            named_cell(regions, name, index)
        }
        ResolvedCallArgument::Immediate { .. } => 0,
    }
}

// A CALL, and the tables that its arguments are looked up in.
#[derive(Drop)]
struct Looked<'a> {
    regions: &'a [u64],
    parameters: &'a [u64],
    arguments: &'a [u64],
    call: ExternCall,
}

impl Looked<'_> {
    fn resolution(&self, i: usize) -> Result<ResolvedCallArgument, CallArgumentError>
        requires { Paired self.now.parameters.now self.now.arguments.now self.now.call i }
        ensures { result ≡ resolution_at self.now.regions.now self.now.parameters.now self.now.arguments.now self.now.call i }
    {
        resolve_at(self.regions, self.parameters, self.arguments, self.call, i)
    }

    // Argument i, where it is a scalar reference.
    fn scalar_fits(&self, i: usize) -> bool
        requires { Paired self.now.parameters.now self.now.arguments.now self.now.call i }
        ensures { result ≡ of_resolved (scalar_fits self.now.regions.now) true (resolution_at self.now.regions.now self.now.parameters.now self.now.arguments.now self.now.call i) }
    {
        match self.resolution(i) {
            Ok(a) => scalar_fits(self.regions, a),
            Err(_) => true,
        }
    }

    // Every scalar reference, immutable ones and the return too.
    fn scalars_fit(&self) -> bool
        requires { Counted self.now.parameters.now self.now.arguments.now self.now.call }
        ensures { result ≡ scalars_fit self.now.regions.now self.now.parameters.now self.now.arguments.now self.now.call }
    {
        (0..self.call.argument_count).all(|i| self.scalar_fits(i))
    }

    // Whether a reply's row hits argument i.
    fn hits(&self, i: usize, y: Reply) -> bool
        requires { Paired self.now.parameters.now self.now.arguments.now self.now.call i }
        ensures { result ≡ of_resolved (hits y) false (resolution_at self.now.regions.now self.now.parameters.now self.now.arguments.now self.now.call i) }
    {
        match self.resolution(i) {
            Ok(a) => hits_argument(y, a),
            Err(_) => false,
        }
    }

    #[tactic(auto, unfolding(crate::specs::Call::reply_row_fits))]
    fn reply_row_fits(&self, reply: &[u64], k: usize) -> bool
        requires { Judging self.now.parameters.now self.now.arguments.now self.now.call reply.now k }
        ensures { result ≡ reply_row_fits self.now.regions.now self.now.parameters.now self.now.arguments.now self.now.call reply.now k }
    {
        let y = reply_at(reply, k);
        let argument = y.argument as usize;
        if self.call.argument_count <= argument {
            return false;
        }
        self.hits(argument, y)
    }

    // The whole reply: its length, then each row.
    fn reply_fits(&self, reply: &[u64]) -> bool
        requires { Counted self.now.parameters.now self.now.arguments.now self.now.call }
        ensures { result ≡ reply_fits self.now.regions.now self.now.parameters.now self.now.arguments.now self.now.call reply.now }
    {
        if !reply_length_fits(reply) {
            return false;
        }
        let rows = reply.len() / REPLY_WIDTH;
        (0..rows).all(|k| self.reply_row_fits(reply, k))
    }

    // The cell of argument i at an offset.
    fn cell(&self, i: usize, offset: u64) -> usize
        requires { Hit self.now.regions.now self.now.parameters.now self.now.arguments.now self.now.call i offset }
        ensures { result ≡ of_resolved (cell_hit self.now.regions.now offset) 0 (resolution_at self.now.regions.now self.now.parameters.now self.now.arguments.now self.now.call i) }
    {
        match self.resolution(i) {
            Ok(a) => argument_cell(self.regions, a, offset),
            Err(_) => 0,
        }
    }
}

// A CALL whose arguments resolve and whose scalar references lie in their regions; else 6, 7, 8 or 14.
fn ready_call(
    regions: &[u64],
    externs: &[u64],
    parameters: &[u64],
    arguments: &[u64],
    x: Instruction,
) -> Result<ExternCall, Refusal>
    requires { CallRanges externs.now parameters.now arguments.now x }
    ensures { result ≡ call_ready regions.now externs.now parameters.now arguments.now x }
{
    let call = resolves(regions, externs, parameters, arguments, x)?;
    let looked = Looked {
        regions,
        parameters,
        arguments,
        call,
    };
    if !looked.scalars_fit() {
        return Err(Refusal::IndexPastLength);
    }
    Ok(call)
}

// A CALL whose whole reply fits; else 6, 7, 8, 14 or 17.
pub fn judge_call(
    regions: &[u64],
    externs: &[u64],
    parameters: &[u64],
    arguments: &[u64],
    x: Instruction,
    reply: &[u64],
) -> Result<ExternCall, Refusal>
    requires { CallRanges externs.now parameters.now arguments.now x }
    ensures { result ≡ call_judged regions.now externs.now parameters.now arguments.now x reply.now }
{
    let call = ready_call(regions, externs, parameters, arguments, x)?;
    let looked = Looked {
        regions,
        parameters,
        arguments,
        call,
    };
    if !looked.reply_fits(reply) {
        return Err(Refusal::UnfitReply);
    }
    Ok(call)
}

// The write of the reply's row k.
#[tactic(auto, unfolding(crate::specs::Call::reply_write))]
pub fn reply_write(
    regions: &[u64],
    parameters: &[u64],
    arguments: &[u64],
    call: ExternCall,
    reply: &[u64],
    k: usize,
) -> Write
    requires { Replied regions.now parameters.now arguments.now call reply.now k }
    ensures { result ≡ reply_write regions.now parameters.now arguments.now call reply.now k }
{
    let y = reply_at(reply, k);
    let looked = Looked {
        regions,
        parameters,
        arguments,
        call,
    };
    let cell = looked.cell(y.argument as usize, y.offset);
    Write {
        cell,
        kind: y.kind,
        word: y.word,
    }
}
