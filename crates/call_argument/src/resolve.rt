// One argument, resolved with its parameter or as the return.
// Translated from quil-rs, instruction/extern_call.rs (Apache-2.0), and changed: see NOTICE.
ghost use Rattle.std.specs.Prelude.{◌≡◌};
ghost use Rattle.call_argument.specs.Resolve.{scalar_of, fixed_of, variable_of, identifier_of, resolve_argument, resolve_return};

use crate::argument::{UnresolvedCallArgument, decode};
use crate::error::CallArgumentResolutionError;
use crate::resolved::ResolvedCallArgument;
use crate::vector::Vector;
use tables::lookup::lookup_region;
use tables::parameter_shape::{FIXED_VECTOR, SCALAR};
use tables::rows::{Argument, Parameter, region_at};

// A reference for a scalar parameter or for the return.
#[tactic(auto, unfolding(crate::specs::Resolve::scalar_of))]
fn resolve_scalar(
    regions: &[u64],
    name: u64,
    index: u64,
    kind: u64,
    mutable: u64,
) -> Result<ResolvedCallArgument, CallArgumentResolutionError>
    ensures { result ≡ scalar_of regions.now name index kind mutable }
{
    let Some(region) = lookup_region(regions, name) else {
        return Err(CallArgumentResolutionError::UndeclaredMemoryReference(name));
    };
    let found = region_at(regions, region);
    if found.kind == kind {
        return Ok(ResolvedCallArgument::MemoryReference {
            name,
            index,
            kind,
            mutable,
        });
    }
    Err(CallArgumentResolutionError::MismatchedScalar {
        expected: kind,
        found: found.kind,
    })
}

// An identifier for a vector of a stated length.
#[tactic(auto, unfolding(crate::specs::Resolve::fixed_of, crate::specs::Vectors::same_vector))]
fn resolve_fixed(
    regions: &[u64],
    name: u64,
    expected: Vector,
    mutable: u64,
) -> Result<ResolvedCallArgument, CallArgumentResolutionError>
    ensures { result ≡ fixed_of regions.now name expected mutable }
{
    let Some(region) = lookup_region(regions, name) else {
        return Err(CallArgumentResolutionError::UndeclaredMemoryReference(name));
    };
    let declared = region_at(regions, region);
    let found = Vector {
        kind: declared.kind,
        length: declared.length,
    };
    if found == expected {
        return Ok(ResolvedCallArgument::Vector {
            name,
            vector: expected,
            mutable,
        });
    }
    Err(CallArgumentResolutionError::MismatchedVector { expected, found })
}

// An identifier for a vector of any length.
#[tactic(auto, unfolding(crate::specs::Resolve::variable_of))]
fn resolve_variable(
    regions: &[u64],
    name: u64,
    kind: u64,
    mutable: u64,
) -> Result<ResolvedCallArgument, CallArgumentResolutionError>
    ensures { result ≡ variable_of regions.now name kind mutable }
{
    let Some(region) = lookup_region(regions, name) else {
        return Err(CallArgumentResolutionError::UndeclaredMemoryReference(name));
    };
    let declared = region_at(regions, region);
    if declared.kind == kind {
        let vector = Vector {
            kind: declared.kind,
            length: declared.length,
        };
        return Ok(ResolvedCallArgument::Vector {
            name,
            vector,
            mutable,
        });
    }
    Err(CallArgumentResolutionError::MismatchedScalar {
        expected: kind,
        found: declared.kind,
    })
}

// An identifier, by the parameter's shape.
#[tactic(auto, unfolding(crate::specs::Resolve::identifier_of, tables::specs::Cases::case_of))]
fn resolve_identifier(
    regions: &[u64],
    name: u64,
    p: Parameter,
) -> Result<ResolvedCallArgument, CallArgumentResolutionError>
    ensures { result ≡ identifier_of regions.now name p }
{
    let shape = p.shape;
    match shape {
        SCALAR => resolve_scalar(regions, name, 0, p.kind, p.mutable),
        FIXED_VECTOR => {
            let expected = Vector {
                kind: p.kind,
                length: p.length,
            };
            resolve_fixed(regions, name, expected, p.mutable)
        }
        _ => resolve_variable(regions, name, p.kind, p.mutable),
    }
}

// An argument for a parameter.
#[tactic(auto, unfolding(crate::specs::Resolve::resolve_argument))]
pub fn resolve_argument(
    regions: &[u64],
    row: Argument,
    p: Parameter,
) -> Result<ResolvedCallArgument, CallArgumentResolutionError>
    ensures { result ≡ resolve_argument regions.now row p }
{
    let argument = decode(row);
    match argument {
        UnresolvedCallArgument::Identifier(name) => resolve_identifier(regions, name, p),
        UnresolvedCallArgument::Reference(name, index) => {
            if p.shape != SCALAR {
                return Err(CallArgumentResolutionError::InvalidVectorArgument(row));
            }
            resolve_scalar(regions, name, index, p.kind, p.mutable)
        }
        UnresolvedCallArgument::Immediate(_, _) => {
            if p.mutable != 0 {
                return Err(CallArgumentResolutionError::ImmediateArgumentForMutable(p.name));
            }
            if p.shape == SCALAR {
                return Ok(ResolvedCallArgument::Immediate {
                    real: row.first,
                    imaginary: row.second,
                    kind: p.kind,
                });
            }
            Err(CallArgumentResolutionError::InvalidVectorArgument(row))
        }
    }
}

// An argument for the return, of that kind.
#[tactic(auto, unfolding(crate::specs::Resolve::resolve_return))]
pub fn resolve_return(
    regions: &[u64],
    row: Argument,
    kind: u64,
) -> Result<ResolvedCallArgument, CallArgumentResolutionError>
    ensures { result ≡ resolve_return regions.now row kind }
{
    let argument = decode(row);
    match argument {
        UnresolvedCallArgument::Identifier(name) => resolve_scalar(regions, name, 0, kind, 1),
        UnresolvedCallArgument::Reference(name, index) => resolve_scalar(
            regions, name, index, kind, 1,
        ),
        UnresolvedCallArgument::Immediate(_, _) => {
            Err(CallArgumentResolutionError::ReturnArgument { found: row })
        }
    }
}
