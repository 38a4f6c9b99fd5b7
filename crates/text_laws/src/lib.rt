// What the definitions of the two texts are for, as the contracts of functions that do nothing.
#![tactic(auto)]

ghost use Rattle.model.specs.Soundness.{TextsAreSound};
ghost use Rattle.model.specs.TextLaws.{MachineLaw, LoopLaw};

// A machine text is accepted exactly if every question is answered yes, and a refusal gives the first no.
pub fn machine_text_law()
    ensures { MachineLaw }
{}

// The same of the loop text.
pub fn loop_text_law()
    ensures { LoopLaw }
{}

// Accepted texts give a machine and a loop in all ranges, and the two a well-formed loop on its machine.
pub fn texts_are_sound()
    ensures { TextsAreSound }
{}
