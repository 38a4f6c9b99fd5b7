// The two calls that read a text, on what stands.
ghost use Rattle.std.specs.Prelude.{◌≡◌, [], IfOk};
ghost use Rattle.guarantee.specs.Calls.{nothing};
ghost use Rattle.standing.specs.Seen.{standing_seen};
ghost use Rattle.standing.specs.Readings.{ReadsMachine, ReadsLoop};

use crate::desk::Desk;
use crate::fault::PackFault;
use crate::plan::Body;
use crate::standing::Standing;
use dependence::loops::Loop;
use edge_list::Edges;
use listing::listing::Listing;
use std::alloc::{AllocError, Global};
use texts::machine::Machine;

impl Desk {
    // Nothing stands, and all the room that will be needed is there. Only this can fail for want of memory.
    pub fn new(heap: Global) -> Result<Desk, AllocError>
        ensures { IfOk result (λ d. standing_seen d.standing ≡ nothing) }
    {
        let edges = Edges::new(heap)?;
        let listing = Listing::new(heap)?;
        Ok(Desk {
            standing: Standing::Nothing,
            edges,
            listing,
        })
    }

    // Reads a machine text. What stood before does not stand any more.
    pub fn read_machine(&mut self, text: &[u8]) -> Result<(), PackFault>
        ensures { ReadsMachine self.old self.new text.now result }
    {
        let machine = Machine::read(text)?;
        self.standing = Standing::Machine(machine);
        Ok(())
    }

    // Reads a loop text for the machine that stands, and lists its edges.
    pub fn read_loop(&mut self, text: &[u8]) -> Result<(), PackFault>
        ensures { ReadsLoop self.old self.new text.now result }
    {
        let Some(machine) = self.standing.machine() else {
            return Err(PackFault::NotStanding);
        };
        let source = Loop::read(text)?;
        self.edges.build(&machine, &source);
        self.standing = Standing::Loop(Body { machine, source });
        Ok(())
    }
}
