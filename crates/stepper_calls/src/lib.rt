// The public calls on the tables as the terminal holds them; by them a step, a run, the type check's verdict in words, the first CALL that does not resolve, how many nodes of a frame were looked at, how long a journal is enough.
#![tactic(auto)]

pub mod bad_call;
pub mod length;
pub mod looked;
pub mod step;
pub mod verdict;

use console::access::access;
use console::check::check;
use console::frame::{FrameError, frame};
use console::resolve::resolve;
use console_session::back::back;
use console_session::forward::forward;
use console_session::open::open;
use console_session::run::run;
use extern_call::rows::ResolveError;
use journal::position::Position;
use session::answer::{OpenAnswer, RunAnswer, StepAnswer};
use session_length::length::journal_length;
use stepper_tables::file::TABLES;
use stepper_tables::held::table;
use stepper_words::heading::Table;
use tables::refusal::Refusal;
use type_rules::error::ProgramError;

pub fn check_tables(tables: &[u64], lengths: [usize; TABLES]) -> Result<(), ProgramError> {
    check(
        table(tables, Table::Regions, lengths),
        table(tables, Table::Externs, lengths),
        table(tables, Table::Parameters, lengths),
        table(tables, Table::Nodes, lengths),
        table(tables, Table::Arguments, lengths),
        table(tables, Table::Instructions, lengths),
    )
}

pub fn resolve_row(
    tables: &[u64],
    lengths: [usize; TABLES],
    row: usize,
    rows: &mut [u64],
) -> Result<usize, ResolveError> {
    resolve(
        table(tables, Table::Regions, lengths),
        table(tables, Table::Externs, lengths),
        table(tables, Table::Parameters, lengths),
        table(tables, Table::Nodes, lengths),
        table(tables, Table::Arguments, lengths),
        table(tables, Table::Instructions, lengths),
        row,
        rows,
    )
}

pub fn access_row(
    tables: &[u64],
    lengths: [usize; TABLES],
    row: usize,
    reads: &mut [u64],
    writes: &mut [u64],
) -> Result<(usize, usize), Refusal> {
    access(
        table(tables, Table::Regions, lengths),
        table(tables, Table::Externs, lengths),
        table(tables, Table::Parameters, lengths),
        table(tables, Table::Nodes, lengths),
        table(tables, Table::Arguments, lengths),
        table(tables, Table::Instructions, lengths),
        row,
        reads,
        writes,
    )
}

pub fn frame_row(tables: &[u64], lengths: [usize; TABLES], row: usize) -> Result<u64, FrameError> {
    frame(
        table(tables, Table::Regions, lengths),
        table(tables, Table::Externs, lengths),
        table(tables, Table::Parameters, lengths),
        table(tables, Table::Nodes, lengths),
        table(tables, Table::Arguments, lengths),
        table(tables, Table::Instructions, lengths),
        row,
    )
}

pub fn length_tables(tables: &[u64], lengths: [usize; TABLES]) -> Result<usize, ProgramError> {
    journal_length(
        table(tables, Table::Regions, lengths),
        table(tables, Table::Externs, lengths),
        table(tables, Table::Parameters, lengths),
        table(tables, Table::Nodes, lengths),
        table(tables, Table::Arguments, lengths),
        table(tables, Table::Instructions, lengths),
    )
}

pub fn open_tables(
    tables: &[u64],
    lengths: [usize; TABLES],
    memory: &mut [u64],
    journal: &[u64],
) -> OpenAnswer {
    open(
        table(tables, Table::Regions, lengths),
        table(tables, Table::Externs, lengths),
        table(tables, Table::Parameters, lengths),
        table(tables, Table::Nodes, lengths),
        table(tables, Table::Arguments, lengths),
        table(tables, Table::Instructions, lengths),
        memory,
        journal,
    )
}

pub fn step_forward(
    tables: &[u64],
    lengths: [usize; TABLES],
    memory: &mut [u64],
    journal: &mut [u64],
    position: Position,
    reply: &[u64],
) -> StepAnswer {
    forward(
        table(tables, Table::Regions, lengths),
        table(tables, Table::Externs, lengths),
        table(tables, Table::Parameters, lengths),
        table(tables, Table::Nodes, lengths),
        table(tables, Table::Arguments, lengths),
        table(tables, Table::Instructions, lengths),
        memory,
        journal,
        position,
        reply,
    )
}

pub fn run_steps(
    tables: &[u64],
    lengths: [usize; TABLES],
    memory: &mut [u64],
    journal: &mut [u64],
    position: Position,
    allowance: u64,
) -> RunAnswer {
    run(
        table(tables, Table::Regions, lengths),
        table(tables, Table::Externs, lengths),
        table(tables, Table::Parameters, lengths),
        table(tables, Table::Nodes, lengths),
        table(tables, Table::Arguments, lengths),
        table(tables, Table::Instructions, lengths),
        memory,
        journal,
        position,
        allowance,
    )
}

pub fn step_back(
    tables: &[u64],
    lengths: [usize; TABLES],
    memory: &mut [u64],
    journal: &[u64],
    position: Position,
) -> StepAnswer {
    back(
        table(tables, Table::Regions, lengths),
        table(tables, Table::Externs, lengths),
        table(tables, Table::Parameters, lengths),
        table(tables, Table::Nodes, lengths),
        table(tables, Table::Arguments, lengths),
        table(tables, Table::Instructions, lengths),
        memory,
        journal,
        position,
    )
}
