// The functions that carry the laws of edges, circuits and the minimum: each law stands in a contract.
#![tactic(auto)]

ghost use Rattle.model.specs.GraphLaws.{ListMeansRules, EdgesLeadForward, DelaysAreShort, NoStandingCircuit, FixedIsHeight, ChangeGivesCircuit, CircuitTellsMinimum, NoSmallerInterval, ClassExcludes, CircuitExcludes, AtMostSequential, SequentialIsSchedule, EdgesFit};
ghost use Rattle.model.specs.MemoryOrder.{MemoryInOrder, OperandsLanded};

// The edge list has the edges of the rules, and no others.
pub fn list_means_rules()
    ensures { ListMeansRules }
{}

// Edges join the loop's operations, and those of distance 0 lead from earlier lines to later.
pub fn edges_lead_forward()
    ensures { EdgesLeadForward }
{}

// An edge asks for no more than the latency of its source, a memory edge for 1 or 0.
pub fn delays_are_short()
    ensures { DelaysAreShort }
{}

// No circuit has distance 0.
pub fn no_standing_circuit()
    ensures { NoStandingCircuit }
{}

// Two instances that touch one cell, at least one a store, keep the plain order.
pub fn memory_in_order()
    ensures { MemoryInOrder }
{}

// Every operand has landed when it is read.
pub fn operands_landed()
    ensures { OperandsLanded }
{}

// A fixed point of relaxation is the height.
pub fn fixed_is_height()
    ensures { FixedIsHeight }
{}

// No fixed point after as many rounds as operations: a simple circuit is above.
pub fn change_gives_circuit()
    ensures { ChangeGivesCircuit }
{}

// How the recurrence minimum is known.
pub fn circuit_tells_minimum()
    ensures { CircuitTellsMinimum }
{}

// No schedule has an interval smaller than the minimum.
pub fn no_smaller_interval()
    ensures { NoSmallerInterval }
{}

// The named class alone excludes each smaller interval.
pub fn class_excludes()
    ensures { ClassExcludes }
{}

// The named circuit alone excludes each smaller interval.
pub fn circuit_excludes()
    ensures { CircuitExcludes }
{}

// The minimum is at most the sum of the latencies.
pub fn at_most_sequential()
    ensures { AtMostSequential }
{}

// The sequential schedule is a schedule.
pub fn sequential_is_schedule()
    ensures { SequentialIsSchedule }
{}

// The edges of a loop are within the limits of the code.
pub fn edges_fit()
    ensures { EdgesFit }
{}
