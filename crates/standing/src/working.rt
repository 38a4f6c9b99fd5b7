// Planning and writing, on what stands.
ghost use Rattle.standing.specs.Works.{Schedules, Writes};

use crate::desk::Desk;
use crate::fault::PackFault;
use crate::plan::Plan;
use crate::standing::Standing;
use model::Parts;
use registers::scheme::Scheme;
use schedule::{Choice, Scheduled, schedule_loop};

impl Desk {
    // Schedules the loop that stands, for a register scheme, which then has accepted the lives.
    pub fn schedule<S: Scheme>(&mut self, scheme: &mut S) -> Result<Scheduled, PackFault>
        ensures { Schedules S.meaning S.place self.old self.new scheme.old scheme.new result }
    {
        let Some(body) = self.standing.body() else {
            return Err(PackFault::NotStanding);
        };
        // The edges of a loop that stands are within the limits, and none of its circuits stands.
        match schedule_loop(&body.machine, &body.source, self.edges.as_slice(), scheme) {
            Ok(scheduled) => {
                self.standing = Standing::Plan(Plan { body, scheduled });
                Ok(scheduled)
            }
            Err(_) => Err(PackFault::NoSchedule),
        }
    }

    // Writes the listing of the plan that stands for so many trips, in the names of the register scheme.
    pub fn write<S: Scheme>(&mut self, scheme: &S, trips: usize) -> Result<Parts, PackFault>
        ensures { Writes self.old self.new (S.meaning scheme.now).name trips result }
    {
        let Some(plan) = self.standing.plan() else {
            return Err(PackFault::NotStanding);
        };
        let Choice {
            schedule,
            turns,
            ..
        } = plan.scheduled.choice;
        // Of a plan that stands only the trips can be too many.
        match self
            .listing
            .write(&plan.body.source, &schedule, scheme, turns, trips)
        {
            Ok(()) => {
                self.standing = Standing::Listing(plan, trips);
                Ok(self.listing.parts())
            }
            Err(_) => Err(PackFault::ManyTrips),
        }
    }
}
