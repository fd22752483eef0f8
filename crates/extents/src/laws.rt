//! What is proved of keys, paths and runs. Each of these functions does nothing but state a law.

ghost use Rattle.extents.specs.Laws.{ReadsBack, Tries, OneTable, KeysApart, Barriers, KeysBeyond, Mended, WalkKeys, RunKeys, PathLength};

/// The look-up over the table of a map's keys reads the map back at every block, holes included.
pub fn law_reads_back()
    ensures { ReadsBack }
{}

/// The look-up tries the keys of the path up to the first that is held.
pub fn law_tries()
    ensures { Tries }
{}

/// Every map has a table of its keys, which is computed, and only that one.
pub fn law_one_table()
    ensures { OneTable }
{}

/// Keys never overlap.
pub fn law_keys_apart()
    ensures { KeysApart }
{}

/// What is a barrier.
pub fn law_barriers()
    ensures { Barriers }
{}

/// Maps that agree outside an interval between two barriers have the same keys there.
pub fn law_keys_beyond()
    ensures { KeysBeyond }
{}

/// A table stays that of the map's keys if it is made anew between two barriers.
pub fn law_mended()
    ensures { Mended }
{}

/// A straight run between barriers has exactly the keys of the greedy walk.
pub fn law_walk_keys()
    ensures { WalkKeys }
{}

/// The map that holds just one run has exactly the keys of the walk over it.
pub fn law_run_keys()
    ensures { RunKeys }
{}

/// A path has one key more than there are ones in the low 12 bits.
pub fn law_path_length()
    ensures { PathLength }
{}
