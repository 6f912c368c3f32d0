ghost use Rattle.meaning.specs.Figures.{Figures};
ghost use Rattle.meaning.specs.Laws.{FewAreMerged, GroupingIsFree, BudgetOnlyStops, StepsAreCounted, CallsRunBodies, ExpressionsStep, LoopsAreUnbounded, IndicesGoUp, RoomOnlyStops, ResultsFit, TypesAreKept};
ghost use Rattle.meaning.specs.Runs.{six};

use merging::Operators;

// A function of a checked module gives results of the declared number and types, whatever the operators are.
pub fn types_stand()
    ensures { TypesAreKept }
{}

// No run merges more than 32,768 parts.
pub fn parts_stand()
    ensures { FewAreMerged }
{}

// Every order and grouping gives the same outcome, for every six operators.
pub fn grouping_stands<S: Operators>()
    ensures { GroupingIsFree S.merges (six S.Plus.is S.Times.is S.Max.is S.Min.is S.And.is S.Or.is) }
{}

// A greater budget changes nothing once a run is finished or full.
pub fn budget_stands()
    ensures { BudgetOnlyStops }
{}

// Steps taken and left make up the budget, and a finished run took a step at least; so does every expression.
pub fn steps_stand()
    ensures runs { StepsAreCounted }
    ensures expressions { ExpressionsStep }
{}

// A call of a function is its body, with the module's own functions for the calls in it.
pub fn calls_stand()
    ensures { CallsRunBodies }
{}

// The bound on the turns of a loop means nothing.
pub fn loops_stand()
    ensures { LoopsAreUnbounded }
{}

// A forall goes upward from low to high.
pub fn indices_stand()
    ensures { IndicesGoUp }
{}

// More room changes nothing unless a run was full, and what a run finishes with fits the room that it had.
pub fn room_stands()
    ensures more { RoomOnlyStops }
    ensures fits { ResultsFit }
{}

// The figures of a small run are as stated.
pub fn figures_stand()
    ensures { Figures }
{}
