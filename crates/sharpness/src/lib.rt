// Three cases in which one hypothesis of the pipelining theorem is missing, and the driving machine leaves another memory than the plain loop.
#![tactic(auto)]

ghost use Rattle.sharpness.specs.BrokenEdge.{BrokenEdge};
ghost use Rattle.sharpness.specs.BrokenLaw.{BrokenLaw};
ghost use Rattle.sharpness.specs.NineStages.{NineStages};

// Times of three operations at interval 3. The load does not wait for the store before it, against their memory edge.
pub fn hasty_load() -> [usize; 3]
    ensures { BrokenEdge result }
{
    [0, 0, 1]
}

// The registers of three variables. The first two lives share a cycle and a register, against the law of places.
pub fn shared_register() -> [usize; 3]
    ensures { BrokenLaw result }
{
    [1, 1, 0]
}

// Times of two operations at interval 1, which are nine stages.
pub fn nine_stages() -> [usize; 2]
    ensures { NineStages result }
{
    [0, 8]
}
