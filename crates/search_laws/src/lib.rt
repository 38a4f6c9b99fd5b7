// The laws of the search and of the plan, each as the contract of a function that does nothing.
#![tactic(auto)]

ghost use Rattle.model.specs.SearchLaws.{PickIsHighest, SearchIsSound, SequentialStands, PlanIsSound, PlanEnds, PlanIsOne, PlanSucceeds};

// The pick is the highest operation that is not placed, the lowest number among equals.
pub fn pick_is_highest()
    ensures { PickIsHighest }
{}

// What a search finds is a schedule, its times fit 16 bits, and its steps are bounded.
pub fn search_is_sound()
    ensures { SearchIsSound }
{}

// The sequential schedule is a schedule of one stage, and a table can hold its lives.
pub fn sequential_stands()
    ensures { SequentialStands }
{}

// A plan is a schedule of at most eight stages that the register scheme takes, at the first interval where one was found.
pub fn plan_is_sound()
    ensures { PlanIsSound }
{}

// From the minimum on there is a plan.
pub fn plan_ends()
    ensures { PlanEnds }
{}

// There is only one.
pub fn plan_is_one()
    ensures { PlanIsOne }
{}

// With a register scheme that takes the sequential schedule a plan succeeds.
pub fn plan_succeeds()
    ensures { PlanSucceeds }
{}
