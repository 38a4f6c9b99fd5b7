// What an operand as it is written stands for.
ghost use Rattle.model.specs.LoopText.{Use as WrittenUse};
ghost use Rattle.statements.specs.Statements.{use_seen};

use crate::statement::Use;
use operations::Operand;

impl Operand for Use {
    ghost Shown = { WrittenUse };

    ghost shown = { use_seen };
}
