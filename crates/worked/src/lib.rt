// The functions that carry the worked examples: the definitions answer as told.
#![tactic(auto)]

ghost use Rattle.model.specs.WorkedRun.{WorkedRun};
ghost use Rattle.model.specs.WorkedFaults.{WorkedFaults};

// The running sum, with both schemes: the hypotheses of the pipelining theorem hold, and memory and files end as told.
pub fn worked_run()
    ensures { WorkedRun }
{}

// The driving machine's five questions, each answered no.
pub fn worked_faults()
    ensures { WorkedFaults }
{}
