//! The keys that a placement calls for, and how a table of exactly these keys is changed.

#![tactic(auto)]

ghost use Rattle.key_rule.specs.Keyed.{Exact, CutInTwo};

/// A table that is held so has exactly the keys of each file's map, and as many as the rule says.
pub fn law_exact()
    ensures { Exact }
{}

/// Four straight blocks are one key, and two once the second is taken out: with room for one key that is refused.
pub fn case_cut_in_two()
    ensures { CutInTwo }
{}
