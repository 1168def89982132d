// The overlaps of a list of rules, as a list, and what it tells: each function carries one theorem as its contract, and does nothing.
#![tactic(auto)]

ghost use Rattle.critical_pairs.specs.Theorems.{OverlapsListed, FinitelyManyPairs, MostGeneralAlike, ResolvedByAny};

// The overlaps of rules are a list in order.
pub fn overlaps_listed()
    ensures { OverlapsListed }
{}

// One end is told by the overlaps of this list.
pub fn finitely_many_pairs()
    ensures { FinitelyManyPairs }
{}

// Most general replacements are the same up to names of letters.
pub fn most_general_alike()
    ensures { MostGeneralAlike }
{}

// An overlap is resolved if it is for whatever makes the two left sides one.
pub fn resolved_by_any()
    ensures { ResolvedByAny }
{}
