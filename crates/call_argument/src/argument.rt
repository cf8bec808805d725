// An argument as it is written in the CALL.
// Translated from quil-rs, instruction/extern_call.rs (Apache-2.0), and changed: see NOTICE.
ghost use Rattle.std.specs.Prelude.{◌≡◌};
ghost use Rattle.call_argument.specs.Argument.{argument_of};

use reals::real;
use tables::argument_form::{IDENTIFIER, REFERENCE};
use tables::rows::Argument;

// A parsed, but unresolved argument.
#[derive(Drop)]
pub enum UnresolvedCallArgument {
    Identifier(u64),
    Reference(u64, u64),
    Immediate(f64, f64),
}

// The row's words still travel beside the decoded argument: a NaN's payload is in them alone.
#[tactic(auto, unfolding(crate::specs::Argument::argument_of, tables::specs::Cases::case_of))]
pub fn decode(row: Argument) -> UnresolvedCallArgument
    ensures { result ≡ argument_of row }
{
    let form = row.form;
    match form {
        IDENTIFIER => UnresolvedCallArgument::Identifier(row.first),
        REFERENCE => UnresolvedCallArgument::Reference(row.first, row.second),
        _ => UnresolvedCallArgument::Immediate(
            real::value_of(row.first),
            real::value_of(row.second),
        ),
    }
}
