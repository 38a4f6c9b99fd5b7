// What an operand stands for.
ghost use Rattle.model.specs.Loop as loops;
ghost use Rattle.dependence.specs.Operations.{operand_seen};

use crate::operation::Operand;

impl operations::Operand for Operand {
    ghost Shown = { loops.Operand };

    ghost shown = { operand_seen };
}
