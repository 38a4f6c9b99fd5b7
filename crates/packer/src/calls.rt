// The five calls. Each keeps the guarantee, for a packer from its making on.
ghost use Rattle.std.specs.Prelude.{◌≡◌};
ghost use Rattle.guarantee.specs.Calls.{machine, loop, plan, expand, run};
ghost use Rattle.packer_laws.specs.States.{Kept, buffers, text_answer, plan_answer, expand_answer, run_answer};

use crate::hardware::hardware_of;
use crate::packer::Packer;
use engine::driving::drive;
use engine::run::Run;
use engine_writes::waiting::Waiting;
use model::Parts;
use reach::reaching::cells_in_memory;
use registers::scheme::Scheme;
use schedule::Scheduled;
use standing::{PackFault, Standing};
use values::domain::Domain;

impl<S: Scheme, D: Domain> Packer<S, D> {
    // Reads a machine text. A loop, a plan and a listing that stood do not stand any more.
    pub fn machine(&mut self, text: &[u8]) -> Result<(), PackFault>
        ensures keeps { Kept S.meaning S.place D.operations self.old.scheme self.old.desk (machine text.now) (text_answer result) (machine text.now) self.new.scheme self.new.desk }
        ensures domain { self.new.domain ≡ self.old.domain }
    {
        self.desk.read_machine(text)
    }

    // Reads a loop text for the machine that stands. A plan and a listing that stood do not stand any more.
    pub fn read_loop(&mut self, text: &[u8]) -> Result<(), PackFault>
        ensures keeps { Kept S.meaning S.place D.operations self.old.scheme self.old.desk (loop text.now) (text_answer result) (loop text.now) self.new.scheme self.new.desk }
        ensures domain { self.new.domain ≡ self.old.domain }
    {
        self.desk.read_loop(text)
    }

    // Plans the loop that stands. A listing that stood does not stand any more.
    pub fn plan(&mut self) -> Result<Scheduled, PackFault>
        ensures keeps { Kept S.meaning S.place D.operations self.old.scheme self.old.desk plan (plan_answer result) plan self.new.scheme self.new.desk }
        ensures domain { self.new.domain ≡ self.old.domain }
    {
        self.desk.schedule(&mut self.scheme)
    }

    // Writes the listing of the plan that stands for so many trips.
    pub fn expand(&mut self, trips: usize) -> Result<Parts, PackFault>
        ensures keeps { Kept S.meaning S.place D.operations self.old.scheme self.old.desk (expand trips) (expand_answer result) (expand trips) self.new.scheme self.new.desk }
        ensures domain { self.new.domain ≡ self.old.domain }
    {
        self.desk.write(&self.scheme, trips)
    }

    // Runs the listing that stands on a lent memory and two lent files, and answers its cycles. The packer stays as it is.
    pub fn run(
        &self,
        memory: &mut [D::Value],
        values: &mut [D::Value],
        waiting: &mut [Waiting<D::Value>],
    ) -> Result<usize, PackFault>
        ensures { Kept S.meaning S.place D.operations self.now.scheme self.now.desk
            (run (buffers memory.old values.old waiting.old)) (run_answer result) (run (buffers memory.new values.new waiting.new))
            self.now.scheme self.now.desk }
    {
        let Standing::Listing(plan, trips) = self.desk.standing else {
            return Err(PackFault::NotStanding);
        };
        let file = self.scheme.file();
        if values.len() < file || waiting.len() < file {
            return Err(PackFault::ShortFiles);
        }
        if !cells_in_memory(&plan.body.source, trips, memory.len()) {
            return Err(PackFault::OutsideMemory);
        }
        let hardware = hardware_of(&plan.body.machine);
        let run = Run {
            interval: plan.scheduled.choice.schedule.interval,
            trips,
            passes: self.desk.listing.passes(),
        };
        match drive(
            &self.desk.listing,
            &self.scheme,
            &self.domain,
            &hardware,
            run,
            memory,
            values,
            waiting,
        ) {
            Ok(cycles) => Ok(cycles),
            // A listing that stands never halts.
            Err(_) => Err(PackFault::NotStanding),
        }
    }
}
