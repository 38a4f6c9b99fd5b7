// The machine text, read whole into a record by value: a refused text leaves nothing behind.
ghost use Rattle.std.specs.Prelude.{◌≡◌};
ghost use Rattle.model.specs.MachineText.{read_machine};
ghost use Rattle.texts.specs.Records.{machine_seen};
ghost use Rattle.texts.specs.Seen.{answered};

use crate::entries::Entries;
use crate::fault::TextFault;
use crate::machine::Machine;
use crate::record::read_text;

impl Machine {
    // The machine of a text, or the first question that it answers no.
    pub fn read(text: &[u8]) -> Result<Machine, TextFault>
        ensures { answered machine_seen result ≡ read_machine text.now }
    {
        let entries: Entries = read_text(text)?;
        Ok(Machine { entries })
    }
}
