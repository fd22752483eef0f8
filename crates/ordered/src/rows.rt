//! The rows of the table.

ghost use Rattle.std.specs.Prelude.{vec_capacity};
ghost use Rattle.ordered.specs.Ordered.{Sound};

use tables::row::Row;

/// Keys of files in order, those of one file in order of their blocks.
/// The memory of all rows is taken when the table is made.
#[derive(Drop)]
pub struct OrderedTable {
    pub(crate) rows: Vec<Row>,
    pub(crate) room: u32,
    ghost sound: { Sound rows.items room (vec_capacity rows) },
}
