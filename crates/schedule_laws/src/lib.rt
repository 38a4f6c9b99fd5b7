// What the code of the plan rests on.
#![tactic(auto)]

ghost use Rattle.schedule_laws.specs.Laws.{OnMachines, RoundsAreHeights};

// A loop and a machine whose texts were accepted are a loop on its machine.
pub fn texts_on_machine()
    ensures { OnMachines }
{}

// From the minimum on, as many rounds as operations give the heights, and there are no others.
pub fn rounds_are_heights()
    ensures { RoundsAreHeights }
{}
