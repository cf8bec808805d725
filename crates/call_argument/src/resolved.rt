// An argument resolved with its parameter or as the return.
// Translated from quil-rs, instruction/extern_call.rs (Apache-2.0), and changed: see NOTICE.
ghost use Rattle.std.specs.Prelude.{◌≡◌};
ghost use Rattle.call_argument.specs.Resolved.{resolved_row};

use crate::vector::Vector;

#[derive(Drop)]
pub enum ResolvedCallArgument {
    Vector {
        name: u64,
        vector: Vector,
        mutable: u64,
    },
    MemoryReference {
        name: u64,
        index: u64,
        kind: u64,
        mutable: u64,
    },
    // The row's own bits.
    Immediate {
        real: u64,
        imaginary: u64,
        kind: u64,
    },
}

pub fn resolved_row(a: ResolvedCallArgument) -> [u64; 5]
    ensures { result ≡ resolved_row a }
{
    match a {
        ResolvedCallArgument::Vector {
            name,
            vector,
            mutable,
        } => [0, name, vector.kind, vector.length, mutable],
        ResolvedCallArgument::MemoryReference {
            name,
            index,
            kind,
            mutable,
        } => [1, name, index, kind, mutable],
        ResolvedCallArgument::Immediate {
            real,
            imaginary,
            kind,
        } => [2, real, imaginary, kind, 0],
    }
}
