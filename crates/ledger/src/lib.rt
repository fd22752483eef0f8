//! The laws of a store, each the contract of a function that does nothing.

#![tactic(auto)]

ghost use Rattle.ledger.specs.Free.{FindsNearest};
ghost use Rattle.ledger.specs.Keys.{KeysFit};
ghost use Rattle.ledger.specs.Order.{RefusedInOrder, RefusedLeaves};
ghost use Rattle.ledger.specs.Promise.{Promise};
ghost use Rattle.ledger.specs.Where.{WritesWhere, ReadsWhere};
ghost use Rattle.ledger.specs.Worked.{WorkedBoard};

/// What holds after every list of calls.
pub fn promise_over_lists()
    ensures { Promise }
{}

/// Of the grounds of a call, in rising number, the first that holds refuses it, and no other does.
pub fn refused_in_order()
    ensures { RefusedInOrder }
{}

/// A refused call changes nothing.
pub fn refused_leaves()
    ensures { RefusedLeaves }
{}

/// Where a granted write puts its bytes.
pub fn writes_where()
    ensures { WritesWhere }
{}

/// Where the bytes of a granted read came from.
pub fn reads_where()
    ensures { ReadsWhere }
{}

/// The map never calls for more keys than there is room for.
pub fn keys_fit()
    ensures { KeysFit }
{}

/// The board block that is taken is the first free one from the goal on, going round.
pub fn finds_nearest()
    ensures { FindsNearest }
{}

/// A board of four blocks, filled and filled again.
pub fn worked_board()
    ensures { WorkedBoard }
{}
