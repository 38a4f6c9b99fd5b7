// What a resolved operand stands for.
ghost use Rattle.model.specs.Issues.{Source};
ghost use Rattle.engine_slots.specs.Slots.{source_of};

use crate::slot::Resolved;
use operations::Operand;

impl Operand for Resolved {
    ghost Shown = { Source };

    ghost shown = { source_of };
}
