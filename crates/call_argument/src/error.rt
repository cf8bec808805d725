// Why an argument does not resolve.
// Translated from quil-rs, instruction/extern_call.rs (Apache-2.0), and changed: see NOTICE.
ghost use Rattle.std.specs.Prelude.{◌≡◌, ◌∷◌};
ghost use Rattle.call_argument.specs.Errors.{argument_error_words, error_row};

use crate::vector::Vector;
use tables::rows::Argument;

#[derive(Drop)]
pub enum CallArgumentResolutionError {
    UndeclaredMemoryReference(u64),
    MismatchedVector { expected: Vector, found: Vector },
    MismatchedScalar { expected: u64, found: u64 },
    InvalidVectorArgument(Argument),
    ReturnArgument { found: Argument },
    ImmediateArgumentForMutable(u64),
}

#[derive(Drop)]
pub enum CallArgumentError {
    Return(CallArgumentResolutionError),
    Argument {
        index: usize,
        error: CallArgumentResolutionError,
    },
}

// An error's row, after the two words that say whose it is.
fn error_row_of(owner: u64, index: u64, error: CallArgumentResolutionError) -> [u64; 7]
    ensures { result ≡ owner ∷ index ∷ argument_error_words error }
{
    match error {
        CallArgumentResolutionError::UndeclaredMemoryReference(name) => {
            [owner, index, 1, name, 0, 0, 0]
        }
        CallArgumentResolutionError::MismatchedVector { expected, found } => {
            [
                owner,
                index,
                2,
                expected.kind,
                expected.length,
                found.kind,
                found.length,
            ]
        }
        CallArgumentResolutionError::MismatchedScalar { expected, found } => {
            [owner, index, 3, expected, found, 0, 0]
        }
        CallArgumentResolutionError::InvalidVectorArgument(row) => {
            [owner, index, 4, row.form, row.first, row.second, 0]
        }
        CallArgumentResolutionError::ReturnArgument { found } => {
            [owner, index, 5, found.form, found.first, found.second, 0]
        }
        CallArgumentResolutionError::ImmediateArgumentForMutable(name) => {
            [owner, index, 6, name, 0, 0, 0]
        }
    }
}

pub fn error_row(e: CallArgumentError) -> [u64; 7]
    ensures { result ≡ error_row e }
{
    match e {
        CallArgumentError::Return(error) => error_row_of(0, 0, error),
        CallArgumentError::Argument { index, error } => error_row_of(1, index as u64, error),
    }
}
