// What holds of the definitions in model: demand 3, what is lent back, and what a refused call leaves. No code runs here: the contract of each function states
// laws of specs/, which it proves.
#![tactic(auto)]

ghost use Rattle.std.specs.Prelude.{Bool, List, ℕ};
ghost use Rattle.model.specs.declared.Room.{Room};
ghost use Rattle.guarantees.specs.WordsOfDemand3.{Input};
ghost use Rattle.guarantees.specs.Demand3.{Demand3First, Demand3Second, MapBytes, LastEntry, NoEntry, EntryPassedOver};
ghost use Rattle.guarantees.specs.Demand3.{Immediates, LaterCall, FirstLent, SecondLent, SecondBoth};
ghost use Rattle.guarantees.specs.LentBack.{LentReadBack, OneCatalogue, LentLengths};
ghost use Rattle.guarantees.specs.RefusedCalls.{RefusedZeroes, RefusedNames, Only24};

// Demand 3: its two halves, and what the words of the second say.
pub fn demand_3()
    ensures first { Demand3First }
    ensures second { Demand3Second }
    ensures map_bytes { MapBytes }
    ensures last_entry { LastEntry }
    ensures no_entry { NoEntry }
    ensures entry_passed_over { EntryPassedOver }
    ensures immediates { Immediates }
    ensures later_call { LaterCall }
{}

// The same of the calls, whose catalogue is read back from the answer and the lent tables.
pub fn demand_3_lent()
    ensures first { FirstLent }
    ensures second { SecondLent }
    ensures both { SecondBoth }
{}

// What a call lends back.
pub fn lent_back()
    ensures read_back { LentReadBack }
    ensures one_catalogue { OneCatalogue }
    ensures lengths { LentLengths }
{}

// What a refused call leaves and names.
pub fn refused_calls()
    ensures zeroes { (x : Input) (entries bytes : List ℕ) (on : Bool) (room : Room) → RefusedZeroes x entries bytes on room }
    ensures names { (x : Input) (entries bytes : List ℕ) (on : Bool) (room : Room) → RefusedNames x entries bytes on room }
    ensures only_24 { (x : Input) (entries bytes : List ℕ) (on : Bool) (room : Room) → Only24 x entries bytes on room }
{}
