// The rows of an extern routine's reply.
ghost use Rattle.std.specs.Prelude.{◌≡◌, ◌<◌};
ghost use Rattle.call_reply.specs.Call.{reply_rows, reply_at, reply_length_fits, fits_row, hits};

use call_argument::resolved::ResolvedCallArgument;
use words::kind;

// Words in a row, and the limit in rows.
pub const REPLY_WIDTH: usize = 4;

pub const REPLY_LIMIT: usize = 64;

// A row. The argument is the number of its resolved row.
#[derive(Drop)]
pub struct Reply {
    pub argument: u64,
    pub offset: u64,
    pub kind: u64,
    pub word: u64,
}

pub fn reply_at(reply: &[u64], k: usize) -> Reply
    requires { k < reply_rows reply.now }
    ensures { result ≡ reply_at reply.now k }
{
    let at = k * REPLY_WIDTH;
    Reply {
        argument: reply[at],
        offset: reply[at + 1],
        kind: reply[at + 2],
        word: reply[at + 3],
    }
}

#[tactic(auto, unfolding(crate::specs::Call::reply_length_fits))]
pub fn reply_length_fits(reply: &[u64]) -> bool
    ensures { result ≡ reply_length_fits reply.now }
{
    (reply.len() % REPLY_WIDTH == 0) & (reply.len() / REPLY_WIDTH <= REPLY_LIMIT)
}

// Whether a row fits an argument of that many cells and that kind.
#[tactic(auto, unfolding(crate::specs::Call::fits_row))]
fn fits_row(mutable: u64, length: u64, kind: u64, y: Reply) -> bool
    ensures { result ≡ fits_row mutable length kind y }
{
    let fits = kind::fits(y.kind, y.word);
    (mutable != 0) & ((y.offset < length) & ((y.kind == kind) & fits))
}

// Whether a row hits a resolved argument; a scalar is one cell.
pub fn hits_argument(y: Reply, a: ResolvedCallArgument) -> bool
    ensures { result ≡ hits y a }
{
    match a {
        ResolvedCallArgument::Vector {
            vector,
            mutable,
            ..
        } => fits_row(mutable, vector.length, vector.kind, y),
        ResolvedCallArgument::MemoryReference { kind, mutable, .. } => {
            fits_row(mutable, 1, kind, y)
        }
        ResolvedCallArgument::Immediate { .. } => false,
    }
}
