// A vector's type.
// Translated from quil-rs, instruction/extern_call.rs (Apache-2.0), and changed: see NOTICE.
#[derive(Clone, Copy, PartialEq, Eq)]
pub struct Vector {
    pub kind: u64,
    pub length: u64,
}
