//! Requests to a block store, alone and in lists.

#![tactic(auto)]

ghost use Rattle.std.specs.Prelude.{◌≡◌};
ghost use Rattle.ledger.specs.Store.{answer_to, buffer_after, state_after, outcome, final};
ghost use Rattle.requests.specs.Requests.{asks, tells, calls_of};

use calls::{Answer, Call, Granted};
use stores::BlockStore;

/// A call with a buffer of its own, of any length, and a place for its answer.
#[derive(Drop)]
pub struct Request {
    pub call: Call,
    /// what a write sends, and where a read shows
    pub buffer: Vec<u8>,
    pub answer: Answer,
}

/// Makes a call of a store, with a buffer. A call is a value that lists hold, so it is told apart here which one it is.
pub fn serve<S: BlockStore>(store: &mut S, call: Call, buffer: &mut [u8]) -> Answer
    ensures shape { S.BlockStore.shape store.new ≡ S.BlockStore.shape store.old }
    ensures answer { result ≡ answer_to (S.BlockStore.shape store.old) (S.BlockStore.state store.old) call buffer.old }
    ensures buffer { buffer.new ≡ buffer_after (S.BlockStore.shape store.old) (S.BlockStore.state store.old) call buffer.old }
    ensures after { S.BlockStore.state store.new ≡ state_after (S.BlockStore.shape store.old) (S.BlockStore.state store.old) call buffer.old }
{
    Ok(match call {
        Call::Write { file, block, mark } => {
            Granted::Wrote(store.write(file, block, mark, buffer)?)
        }
        Call::Read { file, block } => Granted::Showed(store.read(file, block, buffer)?),
        Call::Clear { file, first, n } => Granted::GaveBack(store.clear(file, first, n)?),
        Call::Remove { file } => Granted::GaveBack(store.remove(file)?),
        Call::Demote { file } => Granted::GaveBack(store.demote(file)?),
    })
}

/// Serves each request of a list in turn, and notes its answer.
pub fn run<S: BlockStore>(store: &mut S, requests: &mut [Request])
    ensures shape { S.BlockStore.shape store.new ≡ S.BlockStore.shape store.old }
    ensures told { tells requests.new ≡ outcome (S.BlockStore.shape store.old) (S.BlockStore.state store.old) (asks requests.old) }
    ensures after { S.BlockStore.state store.new ≡ final (S.BlockStore.shape store.old) (S.BlockStore.state store.old) (asks requests.old) }
    ensures calls { calls_of requests.new ≡ calls_of requests.old }
{
    for request in requests.iter_mut() {
        request.answer = serve(store, request.call, request.buffer.as_mut_slice());
    }
}
