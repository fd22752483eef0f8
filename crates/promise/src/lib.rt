//! The promise of a block store, of what really came.

#![tactic(auto)]

ghost use Rattle.promise.specs.Ends.{Compared};
ghost use Rattle.requests.specs.Requests.{asks, tells};
ghost use Rattle.store.specs.Whole.{shaped, Made};

use boards::Board;
use lowers::Lower;
use maps::Map;
use requests::{Request, run};
use store::Store;
use stores::BlockStore;

/// What a store is made of.
pub struct Parts<M, B, L> {
    pub map: M,
    pub board: B,
    pub lower: L,
}

/// A new store over whatever parts there are.
fn opened<M: Map, B: Board, L: Lower>(parts: Parts<M, B, L>) -> Store<M, B, L>
    ensures { Made (shaped M.Map.rule (M.Map.room parts.map) (B.Board.size parts.board) (L.Reading.files parts.lower) (L.Reading.width parts.lower)) (B.Board.block parts.board) (L.Reading.bytes parts.lower) (⟦<Store<M, B, L> as BlockStore>⟧.shape result) (⟦<Store<M, B, L> as BlockStore>⟧.state result) }
{
    let Parts { map, board, lower } = parts;
    Store::new(map, board, lower)
}

/// Makes two new stores, the club's and the server's, over whatever parts each has; runs each end's own requests, then the later ones on both,
/// and hands the stores back.
///
/// The lists stand beside the parts, and not with them in a struct for each end: what a call leaves behind a reference that came in a struct
/// has no name in a contract but its place.
///
/// What comes is true to the book at each end. And if the two were alike once their own requests had run, and the later requests ask the same
/// of both, then they tell the same and are alike again.
pub fn compare<M: Map, B: Board, L: Lower, N: Map, C: Board, K: Lower>(
    club: Parts<M, B, L>,
    club_own: &mut [Request],
    club_later: &mut [Request],
    server: Parts<N, C, K>,
    server_own: &mut [Request],
    server_later: &mut [Request],
) -> (Store<M, B, L>, Store<N, C, K>)
    ensures { Compared (record { shape = shaped M.Map.rule (M.Map.room club.map) (B.Board.size club.board) (L.Reading.files club.lower) (L.Reading.width club.lower); board = B.Board.block club.board; lower = L.Reading.bytes club.lower; own = asks club_own.old; later = asks club_later.old; own_told = tells club_own.new; later_told = tells club_later.new; shape_after = ⟦<Store<M, B, L> as BlockStore>⟧.shape result.0; state_after = ⟦<Store<M, B, L> as BlockStore>⟧.state result.0 }) (record { shape = shaped N.Map.rule (N.Map.room server.map) (C.Board.size server.board) (K.Reading.files server.lower) (K.Reading.width server.lower); board = C.Board.block server.board; lower = K.Reading.bytes server.lower; own = asks server_own.old; later = asks server_later.old; own_told = tells server_own.new; later_told = tells server_later.new; shape_after = ⟦<Store<N, C, K> as BlockStore>⟧.shape result.1; state_after = ⟦<Store<N, C, K> as BlockStore>⟧.state result.1 }) }
{
    let mut at_club = opened(club);
    let mut at_server = opened(server);
    run(&mut at_club, club_own);
    run(&mut at_server, server_own);
    run(&mut at_club, club_later);
    run(&mut at_server, server_later);
    (at_club, at_server)
}
