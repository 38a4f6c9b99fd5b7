// What a source in the code stands for.
ghost use Rattle.model.specs.Codes.{CodeSource};
ghost use Rattle.code.specs.Seen.{source_seen};

use crate::issue::Source;
use operations::Operand;

impl Operand for Source {
    ghost Shown = { CodeSource };

    ghost shown = { source_seen };
}
