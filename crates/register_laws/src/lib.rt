// The laws of the two register schemes. The statements are in the model, the proofs in proofs/.
#![tactic(auto)]

ghost use Rattle.model.specs.Schemes.{rotating, expanded};
ghost use Rattle.model.specs.SchemeLaws.{KeepsLaw, NamesResolve, PlacesByFormula, WorkedLives};

// Rotating keeps its ranges, and gives instances that share a cycle different registers.
pub fn rotating_keeps_law()
    ensures { KeepsLaw rotating }
{}

// So does expanded.
pub fn expanded_keeps_law()
    ensures { KeepsLaw expanded }
{}

// Names resolve to places.
pub fn names_resolve()
    ensures rotating { NamesResolve rotating }
    ensures expanded { NamesResolve expanded }
{}

// Rotating's place is (A - i) mod 64, expanded's is U v + (i mod U).
pub fn places_by_formula()
    ensures { PlacesByFormula }
{}

// The worked example's lives: rotating needs 4, expanded needs 4 with 2 turns.
pub fn worked_lives()
    ensures { WorkedLives }
{}
