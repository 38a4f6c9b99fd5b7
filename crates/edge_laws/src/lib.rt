// What the code that lists the edges of a loop rests on.
#![tactic(auto)]

ghost use Rattle.edge_laws.specs.Laws.{EdgesAreFew};

// A loop whose text is accepted has at most 304 edges.
pub fn edges_are_few()
    ensures { EdgesAreFew }
{}
