// The theory of rewriting that judging rests on: each function carries one theorem as its contract, and does nothing.
#![tactic(auto)]

ghost use Rattle.rewriting.specs.Theorems.{Heights, MadeOne, OrderEnds, OrderKept};
ghost use Rattle.rewriting.specs.Theorems.{DownEnds, OverlapsTell, PeaksTell, Settled, ToldByPairs};
ghost use Rattle.rewriting.specs.Different.{DifferentCounts};
ghost use Rattle.rewriting.specs.Sums.{SumsWorked};
ghost use Rattle.rewriting.specs.MachineTheorems.{MachineSteps, MachineValid, MachineCost, MachineEnds};
ghost use Rattle.rewriting.specs.MachineTheorems.{MachineRoom, MachinePlaces, MachineRemembers};

// The path order has no endless way down.
pub fn order_ends()
    ensures { OrderEnds }
{}

// The path order is kept by replacing letters, in places and by steps.
pub fn order_kept()
    ensures { OrderKept }
{}

// If all rules go down, no steps are endless.
pub fn down_ends()
    ensures { DownEnds }
{}

// There is a number for each term that every step makes smaller.
pub fn heights()
    ensures { Heights }
{}

// Two terms are made one by a least replacement, or by none.
pub fn made_one()
    ensures { MadeOne }
{}

// One end, if the two results at each place where two rules meet come together.
pub fn overlaps_tell()
    ensures { OverlapsTell }
{}

// One end, if all pairs of steps from such places come together.
pub fn peaks_tell()
    ensures { PeaksTell }
{}

// Whether there is one end can be told.
pub fn told_by_pairs()
    ensures { ToldByPairs }
{}

// In a book that settles its equations, terms are equal exactly if they come to one term.
pub fn settled()
    ensures { Settled }
{}

// Sums of numbers as a worked example.
pub fn sums_worked()
    ensures { SumsWorked }
{}

// What the number of different parts of terms is.
pub fn different_counts()
    ensures { DifferentCounts }
{}

// Each move of the machine keeps the whole term or leads on from it by steps.
pub fn machine_steps()
    ensures { MachineSteps }
{}

// What is valid stays valid, and what a finished state has is done.
pub fn machine_valid()
    ensures { MachineValid }
{}

// There is a number for each state that every move makes smaller.
pub fn machine_cost()
    ensures { MachineCost }
{}

// There is a move until the machine is finished, and it comes to be.
pub fn machine_ends()
    ensures { MachineEnds }
{}

// Frames are fewer than the whole's different parts, and all that is held are parts of the whole.
pub fn machine_room()
    ensures { MachineRoom }
{}

// Each frame lacks one part, so it holds no more than three.
pub fn machine_places()
    ensures { MachinePlaces }
{}

// A normal form that is reached is that of the term that was asked for.
pub fn machine_remembers()
    ensures { MachineRemembers }
{}
