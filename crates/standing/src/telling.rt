// What stands, of each kind.
ghost use Rattle.std.specs.Prelude.{◌≡◌};
ghost use Rattle.guarantee.specs.Calls.{machine_in, loop_in, plan_in};
ghost use Rattle.standing.specs.Seen.{standing_seen, machine_known, body_known, plan_known};

use crate::plan::{Body, Plan};
use crate::standing::Standing;
use texts::machine::Machine;

impl Standing {
    pub fn machine(&self) -> Option<Machine>
        ensures { machine_known result ≡ machine_in (standing_seen self.now) }
    {
        match self {
            Standing::Nothing => None,
            Standing::Machine(machine) => Some(*machine),
            Standing::Loop(body) => Some(body.machine),
            Standing::Plan(plan) => Some(plan.body.machine),
            Standing::Listing(plan, _) => Some(plan.body.machine),
        }
    }

    pub fn body(&self) -> Option<Body>
        ensures { body_known result ≡ loop_in (standing_seen self.now) }
    {
        match self {
            Standing::Nothing => None,
            Standing::Machine(_) => None,
            Standing::Loop(body) => Some(*body),
            Standing::Plan(plan) => Some(plan.body),
            Standing::Listing(plan, _) => Some(plan.body),
        }
    }

    pub fn plan(&self) -> Option<Plan>
        ensures { plan_known result ≡ plan_in (standing_seen self.now) }
    {
        match self {
            Standing::Nothing => None,
            Standing::Machine(_) => None,
            Standing::Loop(_) => None,
            Standing::Plan(plan) => Some(*plan),
            Standing::Listing(plan, _) => Some(*plan),
        }
    }
}
