// The loop text, read whole into a record by value: a refused text leaves nothing behind.
ghost use Rattle.std.specs.Prelude.{◌≡◌};
ghost use Rattle.model.specs.LoopText.{read_statements};
ghost use Rattle.texts.specs.Seen.{answered};
ghost use Rattle.statements.specs.Records.{statements_seen};

use crate::statements::Statements;
use texts::fault::TextFault;
use texts::record::read_text;

impl Statements {
    // The statements of a loop text, or the first question that it answers no.
    pub fn read(text: &[u8]) -> Result<Statements, TextFault>
        ensures { answered statements_seen result ≡ read_statements text.now }
    {
        read_text(text)
    }
}
